ghost use Rattle.std.specs.Prelude.{◌≡◌, ◌↔◌, IsTrue};
ghost use Rattle.eprime_equality.specs.SameModels.{AreOneModel};

use eprime_tree::PModel;

/// Whether two models, with the lines of their headers, are one tree. They are exactly where these lines and their models by the
/// definitions are the same.
#[tactic(auto, using(crate::proofs::KnownModels::decides_model, crate::proofs::ModelsBack::decides_pure))]
pub fn same_model(model: &PModel, other: &PModel) -> bool
    ensures tree { IsTrue result ↔ (model.now ≡ other.now) }
    ensures model { IsTrue result ↔ AreOneModel model.now other.now }
{
    *model == *other
}
