//! The first match in two periods of bits.

ghost use Rattle.std.specs.Prelude.{◌≡◌, ◌≤◌, ◌↔◌, IsTrue, IfSome, IfNone, true};
ghost use Rattle.trau_frame.specs.Match.{bit_in, is_match};
ghost use Rattle.ccu_end.specs.Window.{NoMatch};

use crate::frame::READ_BITS;
use trau_frame::{ones_match, zeros_match};

// Whether the sync bits match those of a frame at index `o`, all 35.
fn matches_at(window: &[u8; 640], o: usize) -> bool
    requires { o ≤ 324 }
    ensures { IsTrue result ↔ (is_match (bit_in window.now) o ≡ true) }
{
    zeros_match(window, o) && ones_match(window, o)
}

/// The first index from `first` on at which the sync bits match and the first 316 bits of the frame are in the window.
pub(crate) fn find_match(window: &[u8; 640], first: usize) -> Option<usize>
    requires { first ≤ 640 }
    ensures found { IfSome result (λ o. (first ≤ o) × (o ≤ 324) × NoMatch window.now first o
        × (is_match (bit_in window.now) o ≡ true)) }
    ensures none { IfNone result (NoMatch window.now first 325) }
{
    for o in first..640 - READ_BITS + 1 {
        if matches_at(window, o) {
            return Some(o);
        }
    }
    None
}
