//! The whole text of a desk, within a limit.

ghost use Rattle.std.specs.Prelude.{◌≡◌, ◌≤◌, ◌<◌, length, IfOk, IfErr, IsErrOf};
ghost use Rattle.trau_io.specs.Lines.{Rose};
ghost use Rattle.farm_orders.specs.Given.{GivesPart, GivesWhole};

use crate::OrdersFault;
use std::alloc::{AllocError, Global};
use trau_io::{Desk, Filled, read_desk};

// `size` octets 0.
fn block_of(alloc: Global, size: usize) -> Result<Vec<u8>, AllocError>
    ensures { IfOk result (λ block. length block.items ≡ size) }
{
    vec![in alloc; 0; size]
}

/// Reads the desk to the end of its text, or to one octet past `most`. The memory is allocated before that.
pub(crate) fn read_text<D: Desk>(
    alloc: Global,
    desk: &mut D,
    most: usize,
) -> Result<Vec<u8>, OrdersFault>
    requires { most < 4294967295 }
    ensures whole { IfOk result (λ text. GivesWhole most (D.desk desk.old) (D.desk desk.new) text.items) }
    ensures part { IfErr result (λ fault. GivesPart most (D.desk desk.old) (D.desk desk.new) fault) }
    ensures unread { IsErrOf result OrdersFault.Unread → Rose (D.desk desk.old).read_faults (D.desk desk.new).read_faults }
    ensures calm { (IsErrOf result OrdersFault.Unread → ⊥) → (D.desk desk.new).read_faults ≡ (D.desk desk.old).read_faults }
    ensures later { (D.desk desk.old).read_faults ≤ (D.desk desk.new).read_faults }
    ensures written { (D.desk desk.new).written ≡ (D.desk desk.old).written }
    ensures write_faults { (D.desk desk.new).write_faults ≡ (D.desk desk.old).write_faults }
{
    let mut block = block_of(alloc, most + 1)?;
    match read_desk(desk, &mut block) {
        Filled::Whole => Err(OrdersFault::TooLong),
        Filled::Ended(length) => {
            block.truncate(length);
            Ok(block)
        }
        Filled::Failed(_) => Err(OrdersFault::Unread),
    }
}
