ghost use Rattle.std.specs.Prelude.{◌≡◌, pos};
ghost use Rattle.ess_semantics.specs.Trees.{number_ex};
ghost use Rattle.ess_grammar.specs.Kinds.{nat_of};
ghost use Rattle.eprime_read_cells_laws.specs.CellMachine.{minus_ex};
ghost use Rattle.eprime_cells_machine.specs.ValueViews.{pure_number};

use crate::values::Number;

/// The number whose digits were read.
pub(crate) fn plain(n: i64) -> Number
    requires { pos (nat_of n) ≡ n }
    ensures { pure_number result ≡ number_ex (pos (nat_of n)) }
{
    Number::Plain(n)
}

/// The number whose digits were read behind `-`.
pub(crate) fn minus(n: i64) -> Number
    requires { pos (nat_of n) ≡ n }
    ensures { pure_number result ≡ minus_ex (nat_of n) }
{
    Number::Minus(-n)
}
