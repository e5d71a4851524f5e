ghost use Rattle.std.specs.Prelude.{◌≡◌};
ghost use Rattle.ess_semantics.specs.Meaning.{meaning, empty_env};
ghost use Rattle.eprime_cells_laws.specs.TableReading.{item_of_value};
ghost use Rattle.eprime_cells_machine.specs.ValueViews.{pure_value};
ghost use Rattle.eprime_cells_parts.specs.Numbers.{number_of as number_itself};

use eprime_cells_machine::{CellValue, Number};

/// The number itself.
pub(crate) fn number_of(number: Number) -> i64
    ensures { result ≡ number_itself number }
{
    match number {
        Number::Plain(n) => n,
        Number::Minus(n) => n,
    }
}

/// The item that a value is: a truth value, as 0 or 1, in a table of truth values, a number in any other.
pub fn item_of(value: &CellValue, truths: bool) -> Option<i64>
    ensures { result ≡ item_of_value truths (meaning (pure_value value.now) empty_env) }
{
    match value {
        CellValue::Number(number) => {
            if truths {
                return None;
            }
            Some(number_of(*number))
        }
        CellValue::Truth(truth) => {
            if !truths {
                return None;
            }
            if *truth { Some(1) } else { Some(0) }
        }
        CellValue::List(_) => None,
    }
}
