//! The texts of the command `follow`.

ghost use Rattle.std.specs.Prelude.{◌≡◌, ◌≤◌, length};
ghost use Rattle.ccu_end.specs.Heard.{frames_of};
ghost use Rattle.ccu_end.specs.Told.{word_of, line_of, lines_of};
ghost use Rattle.ccu_end.specs.Tool.{last_text};

use crate::finds::{Found, Heard};
use crate::recording::FollowEnd;
use arrayvec::ArrayString;
use block_lines::{failed_line, left_line};
use itoa::Buffer;
use trau_frame::DownFrame;
use trau_io::Side;

// The word for what a frame says.
fn word(frame: &Option<DownFrame>) -> &'static str
    ensures word { result.now ≡ word_of frame.now }
    ensures short { length result.now ≤ 6 }
{
    match frame {
        Some(DownFrame::Speech { .. }) => "speech",
        Some(DownFrame::Idle) => "idle",
        None => "other",
    }
}

// The line of text of a found frame, as `320 speech`: its place in bits from the line's start, and what it says.
#[tactic(auto, unfolding(crate::specs::Told::line_of))]
fn line(found: &Found) -> ArrayString<32>
    ensures text { result.bytes ≡ line_of found.now }
    ensures short { length result.bytes ≤ 28 }
{
    let mut digits = Buffer::new();
    let mut text = ArrayString::new();
    text.push_str(digits.format(found.place));
    text.push_str(" ");
    text.push_str(word(&found.frame));
    text.push_str("\n");
    text
}

/// The lines of text of the frames of a period, none, one or two.
pub(crate) fn lines(heard: &Heard) -> ArrayString<64>
    ensures { result.bytes ≡ lines_of (frames_of heard.now) }
{
    let mut text = ArrayString::new();
    if let Some(first) = &heard.first {
        text.push_str(line(first).as_str());
    }
    if let Some(second) = &heard.second {
        text.push_str(line(second).as_str());
    }
    text
}

/// The last line of text; empty if the desk failed.
pub(crate) fn last_line(call: u32, end: FollowEnd) -> ArrayString<64>
    ensures { result.bytes ≡ last_text call end }
{
    match end {
        FollowEnd::Done(frames, left) => left_line("follow frames ", frames, left),
        FollowEnd::ReadFailed => failed_line(call, Side::Up),
        FollowEnd::WriteFailed => failed_line(call, Side::Down),
        FollowEnd::DeskFailed => ArrayString::new(),
    }
}
