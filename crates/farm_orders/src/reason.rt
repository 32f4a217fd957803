//! Why a text of orders, or of a mark and orders, isn't taken.

ghost use Rattle.std.specs.Prelude.{◌≡◌, ℕ, Ok, None, IfOk, IfSome, IsNone};
ghost use Rattle.trau_orders.specs.Text.{text_lines, IsFirstBad};
ghost use Rattle.farm_orders.specs.Marked.{IsShort};
ghost use Rattle.farm_orders.specs.Reasons.{IsFaultOfOrders, IsFaultOfMarked};
ghost use Rattle.farm_orders.specs.declared.reason.TextFault.{TextFault as OneFault};

use crate::marked::MOST_MARKED_OCTETS;
use farm_checkpoint::{MarkFault, read_mark};
use std::alloc::{AllocError, Global};
use std::fmt::{self, Display, Formatter};
use trau_orders::{LineFault, first_fault};

/// The first line of a text that isn't in the grammar, as one line of text.
#[derive(Clone, Copy, Debug, PartialEq, Eq)]
pub enum TextFault<'a> {
    /// A line of the mark, from 1.
    Mark(u32),
    /// A line of the orders, and why. If there is a mark, it is counted from the first line after the mark.
    Orders(LineFault<'a>),
}

/// The first line of orders that isn't in the grammar. The limits of their text aren't tested.
pub fn fault_of_orders(text: &[u8]) -> Option<TextFault<'_>>
    ensures some { IfSome result (λ fault. IsFaultOfOrders text.now fault) }
    ensures none { IsNone result → (n : ℕ) → IsFirstBad (text_lines text.now) n → ⊥ }
{
    match first_fault(text) {
        Some(fault) => Some(TextFault::Orders(fault)),
        None => None,
    }
}

/// The first line of a mark, or of the orders after it, that isn't in its grammar; `None` if each line is. `None` also
/// if the text has more than 1,310,720 octets.
pub fn fault_of_marked(alloc: Global, text: &[u8]) -> Result<Option<TextFault<'_>>, AllocError>
    ensures some { IfOk result (λ found. IfSome found (λ fault. IsShort text.now × IsFaultOfMarked text.now fault)) }
    ensures none { result ≡ Ok None → IsShort text.now → (fault : OneFault) → IsFaultOfMarked text.now fault → ⊥ }
{
    if text.len() > MOST_MARKED_OCTETS {
        return Ok(None);
    }
    match read_mark(alloc, text) {
        Ok((_, octets)) => Ok(fault_of_orders(&text[octets as usize..])),
        Err(MarkFault::Line(number)) => Ok(Some(TextFault::Mark(number))),
        Err(MarkFault::Memory) => Err(AllocError),
    }
}

impl Display for TextFault<'_> {
    fn fmt<W: fmt::Write>(&self, f: &mut Formatter<W>) -> fmt::Result {
        match self {
            TextFault::Mark(1) => {
                f.write_str("line 1 of the mark: \"save P\" is expected, as trau save prints it")
            }
            TextFault::Mark(number) => write!(
                f,
                "line {number} of the mark: \"call C from S out X down Y\", C above that of the line before, or \"orders\" is expected"
            ),
            TextFault::Orders(LineFault { line, fault }) => {
                write!(f, "line {line} of the orders: {fault}")
            }
        }
    }
}
