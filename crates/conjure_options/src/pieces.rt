//! Texts that are cut at a byte.
ghost use Rattle.std.specs.Prelude.{◌≡◌, ◌≤◌, ◌<◌, length, map, option_map, IfOk, IfSome};
ghost use Rattle.conjure_options.specs.Pieces.{run_to, cut, pieces};

use ess_core::NoMemory;
use std::alloc::Global;

/// How many bytes stand before the first that is this one.
fn run_to(text: &[u8], byte: u8) -> usize
    ensures len { result ≡ run_to byte text.now }
    ensures within { result ≤ length text.now }
{
    for (i, b) in text.iter().enumerate() {
        if *b == byte {
            return i;
        }
    }
    text.len()
}

/// What stands before the first of these bytes, and what stands behind it, where there is one.
pub(crate) fn cut(text: &[u8], byte: u8) -> (&[u8], Option<&[u8]>)
    ensures cut { (result.0.now, option_map (λ rest. rest.now) result.1) ≡ cut byte text.now }
    ensures shorter { IfSome result.1 (λ rest. length rest.now < length text.now) }
{
    let (front, rest) = text.split_at(run_to(text, byte));
    match rest.split_first() {
        Some((_, behind)) => (front, Some(behind)),
        None => (front, None),
    }
}

/// What stands before, between and behind these bytes.
#[tactic(auto, using(crate::proofs::Cuts::pieces_none, crate::proofs::Cuts::pieces_more, crate::proofs::Cuts::pieces_all))]
pub(crate) fn pieces(alloc: Global, text: &[u8], byte: u8) -> Result<Vec<&[u8]>, NoMemory>
    ensures { IfOk result (λ ps. map (λ p. p.now) ps.items ≡ pieces byte text.now) }
{
    let mut found = Vec::new(alloc);
    let (mut piece, mut left) = cut(text, byte);
    while let Some(rest) = left {
        found.push(piece)?;
        let (next, behind) = cut(rest, byte);
        piece = next;
        left = behind;
    }
    found.push(piece)?;
    Ok(found)
}
