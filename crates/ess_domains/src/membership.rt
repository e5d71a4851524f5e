ghost use Rattle.std.specs.Prelude.{◌≡◌, Some, None, true, option_map, IfOk, IfErr};
ghost use Rattle.ess_semantics.specs.Membership.{member as member_of};
ghost use Rattle.ess_semantics.specs.Meaning.{domain_of as domain_meant};
ghost use Rattle.ess_semantics.specs.Large.{is_large_dom};
ghost use Rattle.ess_core.specs.ValueViews.{pure_val};
ghost use Rattle.ess_core.specs.TreeViews.{pure_dom};
ghost use Rattle.ess_core.specs.TableViews.{pure_env};
ghost use Rattle.ess_eval.specs.declared.calls.EvalNo.TheVariants.{Big, Undefined};
ghost use Rattle.ess_domains.specs.Stops.{is_no_count};

use crate::rooms::with_room;
use ess_core::{Dom, Env, Val};
use ess_domains_members::is_member;
use ess_eval::{EvalNo, domain_of};
use std::alloc::Global;

/// Whether a value is a member of a domain; a member has the canonical form of its kind. `Undefined` exactly where a bound, an
/// attribute value or a named type in the domain has no meaning; `Big` where a number in it lies outside 64 bits; `NoMemory`
/// where there is no room for the members of a domain that an attribute, an index or a partition speaks of.
pub fn member(alloc: Global, dom: &Dom, env: &Env, val: &Val) -> Result<bool, EvalNo>
    ensures ok { IfOk result (λ b. option_map (λ d. member_of d (pure_val val.now)) (domain_meant (pure_dom dom.now) (pure_env env.now))
        ≡ Some b) }
    ensures undefined { result ≡ Err Undefined → domain_meant (pure_dom dom.now) (pure_env env.now) ≡ None }
    ensures big { result ≡ Err Big → is_large_dom (pure_dom dom.now) (pure_env env.now) ≡ true }
    ensures stops { IfErr result (λ no. is_no_count no ≡ true) }
{
    match domain_of(alloc, dom, env)? {
        Some(domain) => with_room(is_member(alloc, domain.get(), val)),
        None => Err(EvalNo::Undefined),
    }
}
