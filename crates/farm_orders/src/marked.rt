//! A mark, and the orders of a run after it.

ghost use Rattle.std.specs.Prelude.{◌≡◌, ◌≤◌, ℕ, List, Some, length, IsErrOf};
ghost use Rattle.trau_io.specs.Lines.{Rose};
ghost use Rattle.farm_orders.specs.declared.fault.OrdersFault.TheVariants.{Unread};
ghost use Rattle.farm_orders.specs.Marked.{AnswersMarked, ReadsMarked, AnswersMarkedTold};

use crate::MarkedFault;
use crate::read::orders_of;
use crate::text::read_text;
use farm_checkpoint::{Mark, read_mark};
use std::alloc::Global;
use trau_io::Desk;
use trau_orders::Orders;

/// The most octets of a mark and the orders after it.
pub(crate) const MOST_MARKED_OCTETS: usize = 1_310_720;

/// A mark, and the orders after it.
#[derive(Drop)]
pub struct MarkedOrders {
    /// The mark, with which the text begins.
    pub mark: Mark,
    /// The orders that the lines after it spell.
    pub orders: Orders,
}

// The mark and the orders of a whole text.
fn marked_of(alloc: Global, text: &[u8]) -> Result<MarkedOrders, MarkedFault>
    requires { length text.now ≤ 1310720 }
    ensures { AnswersMarked text.now result }
{
    let (mark, octets) = read_mark(alloc, text)?;
    let orders = orders_of(alloc, &text[octets as usize..])?;
    Ok(MarkedOrders { mark, orders })
}

/// Reads a mark and the orders of a run after it from the desk, to the end of the text or to one octet past its limit
/// of 1,310,720 octets.
///
/// Errors, in the order in which they are looked for:
/// - `Orders(Unread)`: the desk failed before that.
/// - `Orders(TooLong)`: the text has more octets.
/// - `Mark`: a line isn't in the mark's grammar; the number of the first such line.
/// - `Orders` with the error of `read_orders` for the orders after the mark. Their lines are counted from the first
///   after the mark.
///
/// Any answer may be `Orders(Memory)` instead. The memory for the text is allocated before the desk is read.
pub fn read_marked_orders<D: Desk>(alloc: Global, desk: &mut D) -> Result<MarkedOrders, MarkedFault>
    // What was read of the desk, and the answer to that.
    ensures reads { ReadsMarked (D.desk desk.old) (D.desk desk.new) result }
    // With Unread a fault of reading was counted; with any other answer the count is unchanged.
    ensures unread { IsErrOf result (MarkedFault.Orders Unread) → Rose (D.desk desk.old).read_faults (D.desk desk.new).read_faults }
    ensures calm { (IsErrOf result (MarkedFault.Orders Unread) → ⊥) → (D.desk desk.new).read_faults ≡ (D.desk desk.old).read_faults }
    ensures later { (D.desk desk.old).read_faults ≤ (D.desk desk.new).read_faults }
    // Nothing is written.
    ensures written { (D.desk desk.new).written ≡ (D.desk desk.old).written }
    ensures write_faults { (D.desk desk.new).write_faults ≡ (D.desk desk.old).write_faults }
    // If the desk's text is known, the answer is the one to the whole text, or the desk failed.
    ensures told { (text : List ℕ) → (D.desk desk.old).to_come ≡ Some text → AnswersMarkedTold text result }
{
    let text = read_text(alloc, desk, MOST_MARKED_OCTETS)?;
    marked_of(alloc, &text)
}
