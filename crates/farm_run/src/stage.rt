//! A run at one of its clocks.

ghost use Rattle.std.specs.Prelude.{IfOk};
ghost use Rattle.farm_run.specs.Stages.{IsFirstStage};

use crate::notes::Notes;
use crate::outgoing::Outgoing;
use farm_rounds::Farm;
use std::alloc::{AllocError, Global};
use switchboard::Board;
use trau_orders::Orders;

/// A run at one of its clocks: what is known of it, and where the octets go that its calls give.
#[derive(Drop)]
pub(crate) struct Stage {
    pub(crate) board: Board,
    pub(crate) farm: Farm,
    pub(crate) notes: Notes,
    pub(crate) outgoing: Outgoing,
    /// The period that it has come to.
    pub(crate) clock: u32,
}

impl Stage {
    /// The run of these orders before the first of them.
    pub(crate) fn new(
        alloc: Global,
        orders: Orders,
        outgoing: Outgoing,
    ) -> Result<Stage, AllocError>
        ensures { IfOk result (λ stage. IsFirstStage orders outgoing stage) }
    {
        Ok(Stage {
            board: Board::new(alloc, orders)?,
            farm: Farm::new(alloc)?,
            notes: Notes::new(alloc)?,
            outgoing,
            clock: 0,
        })
    }
}
