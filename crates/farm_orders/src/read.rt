//! The orders of a run.

ghost use Rattle.std.specs.Prelude.{◌≡◌, ◌≤◌, ℕ, List, Some, IsErrOf};
ghost use Rattle.trau_io.specs.Lines.{Rose};
ghost use Rattle.farm_orders.specs.Reading.{AnswersText, ReadsOrders, AnswersTold};

use crate::OrdersFault;
use crate::text::read_text;
use std::alloc::Global;
use trau_io::Desk;
use trau_orders::{MOST_OCTETS, Orders};

/// The orders of a whole text.
pub(crate) fn orders_of(alloc: Global, text: &[u8]) -> Result<Orders, OrdersFault>
    ensures { AnswersText text.now result }
{
    Ok(Orders::parse(alloc, text)?)
}

/// Reads the orders of a run from the desk, to the end of their text or to one octet past its limit of 1,048,576
/// octets.
///
/// Errors, in the order in which they are looked for:
/// - `Unread`: the desk failed before that.
/// - `TooLong`: the text has more than 1,048,576 octets or more than 65,536 lines.
/// - `Line`: a line isn't in the grammar; the number of the first such line.
///
/// Any answer may be `Memory` instead. The memory for the text is allocated before the desk is read.
pub fn read_orders<D: Desk>(alloc: Global, desk: &mut D) -> Result<Orders, OrdersFault>
    // What was read of the desk, and the answer to that.
    ensures reads { ReadsOrders (D.desk desk.old) (D.desk desk.new) result }
    // With Unread a fault of reading was counted; with any other answer the count is unchanged.
    ensures unread { IsErrOf result OrdersFault.Unread → Rose (D.desk desk.old).read_faults (D.desk desk.new).read_faults }
    ensures calm { (IsErrOf result OrdersFault.Unread → ⊥) → (D.desk desk.new).read_faults ≡ (D.desk desk.old).read_faults }
    ensures later { (D.desk desk.old).read_faults ≤ (D.desk desk.new).read_faults }
    // Nothing is written.
    ensures written { (D.desk desk.new).written ≡ (D.desk desk.old).written }
    ensures write_faults { (D.desk desk.new).write_faults ≡ (D.desk desk.old).write_faults }
    // If the desk's text is known, the answer is the one to the whole text, or the desk failed.
    ensures told { (text : List ℕ) → (D.desk desk.old).to_come ≡ Some text → AnswersTold text result }
{
    let text = read_text(alloc, desk, MOST_OCTETS)?;
    orders_of(alloc, &text)
}
