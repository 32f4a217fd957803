//! The fields of a mark's lines: words and a number.

ghost use Rattle.std.specs.Prelude.{◌≡◌, ◌++◌, ◌∷◌, ◌<◌, ◌≤◌, ℕ, List, decimal, IsNone, IfSome};
ghost use Rattle.farm_checkpoint.specs.Marks.{IsOpenAtMark, HasSums};
ghost use Rattle.farm_checkpoint.specs.Text.{save_line, call_text};
ghost use Rattle.farm_checkpoint.specs.Fields.{IsField};
ghost use Rattle.farm_checkpoint.specs.declared.mark.MarkCall.{MarkCall as OneCall};

use crate::MarkCall;
use call_number::LAST_CALL;
use decimal_number::{number_of_octets, split_at_octet};

/// The rest of a text after these words.
pub(crate) fn behind<'a>(text: &'a [u8], words: &[u8]) -> Option<&'a [u8]>
    ensures some { IfSome result (λ rest. text.now ≡ words.now ++ rest.now) }
    ensures none { IsNone result → (rest : List ℕ) → text.now ≡ words.now ++ rest → ⊥ }
{
    text.strip_prefix(words)
}

// Reads these words, a number from `low` to `high` and the octet `stop`, which is no digit. Returns the number and
// the rest.
fn number_behind<'a>(
    text: &'a [u8],
    words: &[u8],
    stop: u8,
    low: u32,
    high: u32,
) -> Option<(u32, &'a [u8])>
    requires { stop < 48 }
    ensures some { IfSome result (λ read. IsField low high words.now stop text.now read.0 read.1.now) }
    ensures none { IsNone result → (n : ℕ) (rest : List ℕ) → IsField low high words.now stop text.now n rest → ⊥ }
{
    let rest = behind(text, words)?;
    let (digits, rest) = split_at_octet(rest, stop)?;
    let number = number_of_octets(digits, low, high)?;
    Some((number, rest))
}

/// The period of a mark's first line, and the text after the line.
pub(crate) fn read_period(text: &[u8]) -> Option<(u32, &[u8])>
    ensures some { IfSome result (λ read. (1 ≤ read.0) × (read.0 ≤ 4294967295) × (text.now ≡ save_line read.0 ++ read.1.now)) }
    ensures none { IsNone result → (period : ℕ) (rest : List ℕ) → 1 ≤ period → period ≤ 4294967295 →
        text.now ≡ save_line period ++ rest → ⊥ }
{
    number_behind(text, b"save ", b'\n', 1, u32::MAX)
}

/// The call of a line, whose number must be greater than `above`, and the text after the line.
pub(crate) fn read_call(text: &[u8], above: u32, period: u32) -> Option<(MarkCall, &[u8])>
    requires above { above ≤ 4096 }
    requires period { 1 ≤ period }
    ensures some { IfSome result (λ read. IsOpenAtMark period read.0 × HasSums read.0 × (above < read.0.call) × (text.now ≡ call_text read.0 ++ read.1.now)) }
    ensures none { IsNone result → (call : OneCall) (rest : List ℕ) → IsOpenAtMark period call → HasSums call → above < call.call →
        text.now ≡ call_text call ++ rest → ⊥ }
{
    let (call, rest) = number_behind(text, b"call ", b' ', above + 1, LAST_CALL)?;
    let (from, rest) = number_behind(rest, b"from ", b' ', 0, period - 1)?;
    let (out, rest) = number_behind(rest, b"out ", b' ', 0, u32::MAX)?;
    let (down, rest) = number_behind(rest, b"down ", b'\n', 0, u32::MAX)?;
    Some((
        MarkCall {
            call,
            from,
            out,
            down,
        },
        rest,
    ))
}
