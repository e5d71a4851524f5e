ghost use Rattle.std.specs.Prelude.{◌≡◌, ◌+◌, List, length, IfOk, IfErr, slice_get};
ghost use Rattle.ess_core_parts.specs.Numbered.{Parted, found};
ghost use Rattle.ess_core.specs.declared.expressions.Ex.{Ex};

use ess_core::Ex;

/// What has numbered parts.
pub trait Parts: Sized {
    ghost parted: { Self → Parted Self };

    /// The part number `k`, or how far `k` is past the parts.
    fn part(&self, k: u32) -> Result<&Ex, u32>
        ensures is { IfOk result (λ e. slice_get (parted self.now).parts k ≡ Some e.now) }
        ensures past { IfErr result (λ n. k ≡ n + length (parted self.now).parts) };

    /// Puts `new` in place of the part number `k`, and answers what stood there, or how far `k` is past the parts, with `new`.
    fn put_part(&mut self, k: u32, new: Ex) -> Result<Ex, (u32, Ex)>
        ensures was { result ≡ found (parted self.old).parts k new }
        ensures after { self.new ≡ (parted self.old).put k new };
}
