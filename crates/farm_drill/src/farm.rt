//! A whole drill.

ghost use Rattle.std.specs.Prelude.{◌≡◌, ◌≤◌, IfOk, OnOk};
ghost use Rattle.trau_orders.specs.Text.{text_lines, AreLines, IsWithin};
ghost use Rattle.farm_drill.specs.Lines.{AreDrilled};
ghost use Rattle.farm_drill.specs.Orders.{text_of, drilled_orders};

use crate::lines::set_call;
use crate::orders::orders_text;
use std::alloc::{AllocError, Global};
use trau_io::MemTrunk;

// Sets the lines of all calls.
fn set_calls(
    trunk: &mut MemTrunk,
    alloc: Global,
    seed: u32,
    calls: u32,
    periods: u32,
) -> Result<(), AllocError>
    requires calls { calls ≤ 256 }
    requires periods { periods ≤ 1000 }
    ensures { OnOk result (AreDrilled seed 0 periods trunk.old → AreDrilled seed calls periods trunk.new) }
{
    for earlier in 0..calls {
        set_call(trunk, alloc, seed, earlier + 1, periods)?;
    }
    Ok(())
}

/// Draws the lines and the text of the orders of a drill from a seed: calls 1 to `calls`, at most 256, each of
/// `periods` periods of 20 ms, at most 1,000. The text is a text of orders within the limits. An error says that memory
/// ran out. It takes 400 octets for each call and period, call by call: half for the incoming lines before the call's
/// first draw, and half as room for the outgoing lines after its last.
pub fn drill(
    alloc: Global,
    seed: u32,
    calls: u32,
    periods: u32,
) -> Result<(MemTrunk, Vec<u8>), AllocError>
    requires calls { calls ≤ 256 }
    requires periods { periods ≤ 1000 }
    ensures lines { IfOk result (λ made. AreDrilled seed calls periods made.0) }
    ensures text { IfOk result (λ made. made.1.items ≡ text_of (drilled_orders calls periods)) }
    ensures orders { IfOk result (λ made. AreLines (text_lines made.1.items) (drilled_orders calls periods)) }
    ensures within { IfOk result (λ made. IsWithin made.1.items) }
{
    let text = orders_text(alloc, calls, periods)?;
    let mut trunk = MemTrunk::new(alloc)?;
    set_calls(&mut trunk, alloc, seed, calls, periods)?;
    Ok((trunk, text))
}
