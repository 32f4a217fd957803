//! The text of `merge`.
ghost use Rattle.std.specs.Prelude.{◌≡◌, ◌≤◌, length};
ghost use Rattle.trau_submux.specs.Tools.{merge_text, two_text};

use crate::join::MergeEnd;
use arrayvec::ArrayString;
use block_lines::failed_line;
use itoa::Buffer;

// Two numbers, each after a space.
fn two_numbers(first: u32, second: u32) -> ArrayString<32>
    ensures bytes { result.bytes ≡ two_text first second }
    ensures short { length result.bytes ≤ 22 }
{
    let mut digits = Buffer::new();
    let mut text = ArrayString::new();
    text.push_str(" ");
    text.push_str(digits.format(first));
    text.push_str(" ");
    text.push_str(digits.format(second));
    text
}

/// The text of a merge's end, one line.
pub(crate) fn text_of_merge(end: MergeEnd) -> ArrayString<128>
    ensures { result.bytes ≡ merge_text end }
{
    let mut text = ArrayString::new();
    match end {
        MergeEnd::Done(octets, left) => {
            let mut digits = Buffer::new();
            text.push_str("merge octets ");
            text.push_str(digits.format(octets));
            text.push_str(" left");
            text.push_str(two_numbers(left[0], left[1]).as_str());
            text.push_str(two_numbers(left[2], left[3]).as_str());
            text.push_str("\n");
        }
        MergeEnd::LineFailed(line) => text.push_str(failed_line(line.call, line.side).as_str()),
    }
    text
}
