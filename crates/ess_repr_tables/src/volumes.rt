ghost use Rattle.std.specs.Prelude.{◌≡◌, IfOk};
ghost use Rattle.ess_semantics.specs.Tables.{volume as volume_of};

use ess_core::{NoMemory, Row};

/// How many items a table over these axes has. `NoMemory` where they are more than can be counted.
#[tactic(auto, using(crate::proofs::UsedNumbers::volume_more))]
pub fn volume(axes: &[Row<i64>]) -> Result<usize, NoMemory>
    ensures { IfOk result (λ n. n ≡ volume_of axes.now) }
{
    let mut volume: usize = 1;
    for k in 0..axes.len() {
        match volume.checked_mul(axes[axes.len() - 1 - k].len()) {
            Some(product) => volume = product,
            None => return Err(NoMemory),
        }
    }
    Ok(volume)
}
