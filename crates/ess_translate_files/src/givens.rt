//! What a parameter gives for a model's file.
ghost use Rattle.std.specs.Prelude.{◌≡◌, List, map, option_map, IfOk, IfErr};
ghost use Rattle.ess_semantics.specs.Trees.{Stm as PureStm};
ghost use Rattle.ess_semantics.specs.Assignments as pure;
ghost use Rattle.ess_semantics.specs.Assignments.{nothing_given, env_of};
ghost use Rattle.ess_semantics.specs.Parameters.{Param};
ghost use Rattle.ess_semantics.specs.Plans.{plans};
ghost use Rattle.ess_core.specs.TableViews.{pure_env, pure_cells};
ghost use Rattle.ess_eval_domains.specs.ClosedViews.{pure_closed};
ghost use Rattle.ess_domains.specs.Assignments.{pure_assignment};
ghost use Rattle.ess_translate.specs.Answers.{IsParameter, IsNoParameter};
ghost use Rattle.ess_translate_members_laws.specs.PlanDomains.{plan_closed};
ghost use Rattle.ess_translate_files.specs.GivenFiles.{IsGiven, IsNotGiven, HasNoTables};
ghost use Rattle.ess_translate_files.specs.Wholes.{file_header, file_model, IsWhole, HoldsTables, IsGivenFor};

use crate::models::ModelFile;
use crate::refusals::eval_no;
use crate::tables::tables_under;
use ess_core::{Boxed, Cells, Env, Row};
use ess_domains::Assignment;
use ess_eval_domains::Closed;
use ess_translate::{TransNo, parameter_of};
use ess_translate_env::{closed_plans, env_under};
use std::alloc::Global;

/// A parameter's values with the env that they make, the domains of the plans under it, in their order, and the given tables.
#[derive(Drop)]
pub struct Given {
    pub param: Assignment,
    pub env: Env,
    pub closed: Row<Option<Boxed<Closed>>>,
    pub tables: Cells,
}

/// Reads a file of a parameter for a model's file: it fits the header's specification, no given or find has too many cells, and the
/// model declares the axes and cell domains of its tables. The errors are those of `parameter_of`, `TooManyCells` of the first given
/// or find that has more than 2^24 cells, `HeaderBad` where the model declares other members, `Big` and `NoMemory`.
#[tactic(auto, using(crate::proofs::Refused::is_param))]
pub fn given_in(alloc: Global, file: &ModelFile, param: &[u8]) -> Result<Given, TransNo>
    requires { IsWhole file.now }
    ensures ok { IfOk result (λ g. (F : List PureStm)
        × IsGiven (file_header file.now) (file_model file.now) param.now F (pure_assignment g.param) (pure_cells g.tables)) }
    ensures whole { IfOk result (IsGivenFor file.now) }
    ensures refused { IfErr result (IsNotGiven (file_header file.now) (file_model file.now) param.now) }
{
    match values_in(alloc, file, param) {
        Ok(param) => given_by(alloc, file, param),
        Err(why) => Err(why),
    }
}

/// What a parameter gives that fits the header's specification.
fn given_by(alloc: Global, file: &ModelFile, param: Assignment) -> Result<Given, TransNo>
    requires whole { IsWhole file.now }
    requires fits { Param (file_header file.now).statements (pure_assignment param) }
    ensures param { IfOk result (λ g. g.param ≡ param) }
    ensures holds { IfOk result (HoldsTables file.now) }
    ensures refused { IfErr result (HasNoTables (file_header file.now) (file_model file.now) (pure_assignment param)) }
{
    let env = env_for(alloc, file, &param)?;
    let closed = match domains_under(alloc, file, &env) {
        Ok(closed) => closed,
        Err(why) => return Err(why),
    };
    let tables = tables_under(alloc, file, closed.as_slice(), &param)?;
    Ok(Given {
        param,
        env,
        closed,
        tables,
    })
}

/// The values that a file of a parameter gives.
#[tactic(auto, using(crate::proofs::Refused::no_parameter))]
fn values_in(alloc: Global, file: &ModelFile, param: &[u8]) -> Result<Assignment, TransNo>
    requires { IsWhole file.now }
    ensures ok { IfOk result (λ p. (F : List PureStm) × IsParameter (file_header file.now).statements param.now F (pure_assignment p)) }
    ensures refused { IfErr result (IsNotGiven (file_header file.now) (file_model file.now) param.now) }
{
    parameter_of(alloc, &file.header.spec, param)
}

/// The env of a parameter.
#[tactic(auto, using(crate::proofs::Refused::env_refused))]
fn env_for(alloc: Global, file: &ModelFile, param: &Assignment) -> Result<Env, TransNo>
    requires { IsWhole file.now }
    ensures ok { IfOk result (λ e. pure_env e ≡ env_of (file_header file.now).statements (pure_assignment param.now) nothing_given) }
    ensures refused { IfErr result (HasNoTables (file_header file.now) (file_model file.now) (pure_assignment param.now)) }
{
    match env_under(alloc, file.header.spec.prepared.stms.as_slice(), param) {
        Ok(env) => Ok(env),
        Err(why) => Err(eval_no(why)),
    }
}

/// The domains of the plans under the env of a parameter.
#[tactic(auto, using(crate::proofs::Refused::domains_refused))]
fn domains_under(
    alloc: Global,
    file: &ModelFile,
    env: &Env,
) -> Result<Row<Option<Boxed<Closed>>>, TransNo>
    requires { IsWhole file.now }
    ensures ok { IfOk result (λ c. map (option_map pure_closed) c
        ≡ map (plan_closed (pure_env env.now)) (plans (file_header file.now).statements (file_header file.now).reprs)) }
    ensures refused { IfErr result (λ why. (p : pure.Assignment) →
        pure_env env.now ≡ env_of (file_header file.now).statements p nothing_given
        → HasNoTables (file_header file.now) (file_model file.now) p why) }
{
    match closed_plans(alloc, file.plans.as_slice(), env) {
        Ok(closed) => Ok(closed),
        Err(why) => Err(eval_no(why)),
    }
}
