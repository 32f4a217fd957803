//! The last 120 residuals, which both sides keep.

ghost use Rattle.std.specs.Prelude.{◌≡◌, ℕ, ◌++◌, drop};

/// Drops the oldest 40 samples and appends a block.
pub(crate) fn remember(residuals: &mut [i16; 120], block: &[i16; 40])
    ensures { residuals.new ≡ drop 40 residuals.old ++ block.now }
{
    residuals.copy_within(40.., 0);
    residuals[80..].copy_from_slice(block);
}
