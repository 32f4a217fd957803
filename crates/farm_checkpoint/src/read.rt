//! Reads a mark at the start of a text.

ghost use Rattle.std.specs.Prelude.{◌≡◌, ◌++◌, ◌≤◌, ℕ, List, length, IfOk, IsErrOf};
ghost use Rattle.farm_checkpoint.specs.Marks.{MarkView};
ghost use Rattle.farm_checkpoint.specs.Text.{orders_line, IsRead, IsFirstBad};
ghost use Rattle.farm_checkpoint.specs.Reading.{AreCallLines, IsBadCall};

use crate::line::{behind, read_call, read_period};
use crate::{Mark, MarkCall, MarkFault};
use std::alloc::Global;

const ORDERS_LINE: &[u8] = b"orders\n";

// The calls of the lines after the first one, and the text after the line `orders`.
fn read_calls(alloc: Global, period: u32, text: &[u8]) -> Result<(Vec<MarkCall>, &[u8]), MarkFault>
    requires period { 1 ≤ period }
    requires size { length text.now ≤ 1310720 }
    ensures ok { IfOk result (λ read. AreCallLines period text.now read.0.items (orders_line ++ read.1.now)) }
    ensures bad { (n : ℕ) → IsErrOf result (MarkFault.Line n) → IsBadCall period text.now n }
{
    let mut calls = Vec::new(alloc);
    let mut last = 0;
    let mut rest = text;
    while let Some((call, after)) = read_call(rest, last, period) {
        last = call.call;
        calls.push(call)?;
        rest = after;
    }
    match behind(rest, ORDERS_LINE) {
        Some(orders) => Ok((calls, orders)),
        None => Err(MarkFault::Line(calls.len() as u32 + 2)),
    }
}

/// The mark at the start of a text of at most 1,310,720 octets, and the mark's length in octets. What follows the mark
/// isn't read. A text that doesn't begin with a mark gives `Line` with the number, from 1, of the first line that
/// isn't in the grammar. A line without its LF isn't in the grammar. If memory runs out, the error is `Memory`.
pub fn read_mark(alloc: Global, text: &[u8]) -> Result<(Mark, u32), MarkFault>
    requires { length text.now ≤ 1310720 }
    ensures ok { IfOk result (λ read. IsRead text.now read.0 read.1) }
    ensures bad { (n : ℕ) → IsErrOf result (MarkFault.Line n) → IsFirstBad text.now n }
    ensures known { (mark : MarkView) (octets : ℕ) → IsRead text.now mark octets →
        IfOk result (λ read. (read.0 ≡ mark) × (read.1 ≡ octets)) × ((n : ℕ) → IsErrOf result (MarkFault.Line n) → ⊥) }
    ensures first { (n : ℕ) → IsFirstBad text.now n → IfOk result (λ read. ⊥) × ((m : ℕ) → IsErrOf result (MarkFault.Line m) → m ≡ n) }
{
    let Some((period, rest)) = read_period(text) else {
        return Err(MarkFault::Line(1));
    };
    let (calls, orders) = read_calls(alloc, period, rest)?;
    let octets = text.len() - orders.len();
    Ok((Mark { period, calls }, octets as u32))
}
