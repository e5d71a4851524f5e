//! Where no letting is put in.
ghost use Rattle.std.specs.Prelude.{◌≡◌};
ghost use Rattle.ess_semantics.specs.Lettings.{is_record_or_tuple};
ghost use Rattle.ess_core.specs.TypeViews.{pure_ty};

use ess_core::Ty;

/// Whether a type is one of records or tuples: an index of such a place stays as it is written, since a field is no name and a
/// component's number is written out.
pub fn is_record_or_tuple(ty: &Ty) -> bool
    ensures { result ≡ is_record_or_tuple (pure_ty ty.now) }
{
    match ty {
        Ty::Tuple(_) => true,
        Ty::Rec(_) => true,
        _ => false,
    }
}
