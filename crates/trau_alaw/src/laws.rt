//! Laws of the intervals of A-law and mu-law.

ghost use Rattle.std.specs.Prelude.{◌≡◌, ◌≢◌};
ghost use Rattle.trau_alaw.specs.declared.Law.{Law};
ghost use Rattle.trau_alaw.specs.Companding.{PartsWords};
ghost use Rattle.trau_alaw.specs.Alaw.{alaw};
ghost use Rattle.trau_alaw.specs.Laws.{companding};

use crate::{Law, compress_law, expand_law};

/// Each sample of 16 bits lies in the interval of exactly one octet, in each law.
pub fn intervals_part_the_words()
    ensures alaw { PartsWords alaw }
    ensures each { (law : Law) → PartsWords (companding law) }
{}

/// Expands and compresses an octet of a line with this law: the result is the same octet, except for 0x7F, the negative
/// zero of mu-law.
pub fn recompress_law(law: Law, octet: u8) -> u8
    ensures { (law ≡ Law.Mu → octet ≢ 127) → result ≡ octet }
{
    compress_law(law, expand_law(law, octet))
}
