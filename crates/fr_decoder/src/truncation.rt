//! Truncation (GSM 06.10, sections 4.3.6 and 4.3.7).

ghost use Rattle.std.specs.Prelude.{◌≡◌, map};
ghost use Rattle.fr_decoder.specs.Truncation.{truncated};

use trau_num::add;

// Doubles a sample and drops its three lowest bits.
#[tactic(auto, unfolding(crate::specs::Truncation::truncated))]
fn truncated(msr: i16) -> i16
    ensures { result ≡ truncated msr }
{
    (add(msr, msr) >> 3) * 8
}

/// Truncates de-emphasised samples to 13 bits, left-justified in 16.
pub(crate) fn truncate(x: &mut [i16; 160])
    ensures { x.new ≡ map truncated x.old }
{
    for sample in x.iter_mut() {
        *sample = truncated(*sample);
    }
}
