//! The first match in two periods of bits.

ghost use Rattle.std.specs.Prelude.{◌≡◌, ◌+◌, ◌≤◌, ◌<◌, ◌==◌, if◌then◌else◌, IfSome, IfNone, true};
ghost use Rattle.trau_frame.specs.Match.{bit_in, is_match};
ghost use Rattle.frame_sync.specs.Yields.{NoMatch};

use trau_frame::ones_match;

// The number of zeros in a row after one more bit.
fn zeros_after(zeros: usize, bit: u8) -> usize
    requires { zeros < 640 }
    ensures { result ≡ (if bit == 0 then zeros + 1 else 0) }
{
    if bit == 0 { zeros + 1 } else { 0 }
}

/// The first matching place from `first` on whose frame ends in the window.
pub(crate) fn find_match(window: &[u8; 640], first: usize) -> Option<usize>
    requires { first ≤ 320 }
    ensures found { IfSome result (λ o. (first ≤ o) × (o ≤ 320)
        × NoMatch (bit_in window.now) first o × (is_match (bit_in window.now) o ≡ true)) }
    ensures none { IfNone result (NoMatch (bit_in window.now) first 321) }
{
    let mut zeros = 0;
    // Place 320 is the last whose frame ends in the window, and its sixteenth zero is at 335.
    for end in first..336 {
        zeros = zeros_after(zeros, window[end]);
        if zeros >= 16 && ones_match(window, end - 15) {
            return Some(end - 15);
        }
    }
    None
}
