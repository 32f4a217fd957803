//! The last lines of text of `relay` and `decode`.
ghost use Rattle.std.specs.Prelude.{◌≡◌, ◌≤◌, length};
ghost use Rattle.farm_tools.specs.Machines.{taken_text, refusal_text};

use arrayvec::ArrayString;
use itoa::Buffer;

/// How many frames were taken, as `relay frames 7`.
pub fn taken_text(word: &str, frames: u32) -> ArrayString<64>
    requires { length word.now ≤ 6 }
    ensures { result.bytes ≡ taken_text word.now frames }
{
    let mut digits = Buffer::new();
    let mut text = ArrayString::new();
    text.push_str(word);
    text.push_str(" frames ");
    text.push_str(digits.format(frames));
    text.push_str("\n");
    text
}

/// How many blocks preceded the refused one, as `relay refused 7`.
pub fn refusal_text(word: &str, blocks: u32) -> ArrayString<64>
    requires { length word.now ≤ 6 }
    ensures { result.bytes ≡ refusal_text word.now blocks }
{
    let mut digits = Buffer::new();
    let mut text = ArrayString::new();
    text.push_str(word);
    text.push_str(" refused ");
    text.push_str(digits.format(blocks));
    text.push_str("\n");
    text
}
