//! The texts of yields.
ghost use Rattle.std.specs.Prelude.{◌≡◌, ◌≤◌, ◌<◌, ◌^◌, [], length};
ghost use Rattle.frame_sync.specs.Yields.{place_of};
ghost use Rattle.frame_sync.specs.Periods.{CarriesFrame};
ghost use Rattle.frame_listing.specs.Texts.{line_of, word_by, word_of};

use arrayvec::ArrayString;
use frame_sync::Yield;
use itoa::Buffer;
use trau_frame::{Class, Kind, read_up};

// The word for a frame of this kind and class.
fn word_by(kind: Kind, class: Class) -> &'static str
    ensures word { result.now ≡ word_by kind class }
    ensures short { length result.now ≤ 7 }
{
    match (kind, class) {
        (Kind::Speech, Class::Good) => "good",
        (Kind::Speech, Class::Sid) => "sid",
        (Kind::Speech, Class::InvalidSid) => "invalid",
        (Kind::Speech, Class::Unusable) => "bad",
        (Kind::Idle, _) => "idle",
        (Kind::Other, _) => "other",
    }
}

// The word for a yield.
fn word(found: &Yield) -> &'static str
    requires { CarriesFrame found.now }
    ensures word { result.now ≡ word_of found.now }
    ensures short { length result.now ≤ 7 }
{
    match found {
        Yield::Frame { bits, .. } => {
            let frame = read_up(bits);
            word_by(frame.kind, frame.class)
        }
        Yield::Miss { .. } => "miss",
    }
}

// The place of a yield, in bits from the line's start.
fn place(found: &Yield) -> u64
    ensures { result ≡ place_of found.now }
{
    match found {
        Yield::Frame { place, .. } | Yield::Miss { place } => *place,
    }
}

/// Writes the line of text of a yield, as `325 good`, to an empty text: its place in bits from the line's start, and
/// what was found there.
#[tactic(auto, unfolding(crate::specs::Texts::line_of))]
pub(crate) fn write_line(found: &Yield, text: &mut ArrayString<64>)
    requires frame { CarriesFrame found.now }
    requires empty { text.old.bytes ≡ [] }
    ensures { text.new.bytes ≡ line_of found.now }
{
    let mut digits = Buffer::new();
    text.push_str(digits.format(place(found)));
    text.push_str(" ");
    text.push_str(word(found));
    text.push_str("\n");
}
