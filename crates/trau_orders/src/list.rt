//! The orders of a run.

ghost use Rattle.std.specs.Prelude.{◌≡◌, ◌<◌, ◌≤◌, ◌↔◌, ℕ, length, IfOk, IsErrOf};
ghost use Rattle.trau_orders.specs.Lists.{AreOrders};
ghost use Rattle.trau_orders.specs.Text.{text_lines, AreLines, IsFirstBad, IsWithin};
ghost use Rattle.trau_orders.specs.declared.list.TheConstants.{MOST_OCTETS, MOST_LINES};

use crate::text::{count_lines, orders_of};
use crate::{Order, OrderFault};
use std::alloc::Global;
use std::marker::Model;

/// The most octets of a text of orders.
pub const MOST_OCTETS: usize = 1_048_576;

/// The most lines of a text of orders.
pub const MOST_LINES: usize = 65_536;

/// The orders of a run, at most 65,536, with stamps that don't fall. Contracts see them as a list.
#[derive(Drop)]
pub struct Orders {
    items: Vec<Order>,
}

impl Model for Orders {
    ghost use Rattle.std.specs.Prelude.{List};
    ghost use Rattle.trau_orders.specs.declared.order.Order.{Order as OneOrder};
    ghost use Rattle.trau_orders.specs.Lists.{AreOrders};

    ghost Value = { List OneOrder };

    ghost view = { λ o. o.items.items };

    ghost invariant = { λ o. AreOrders o.items.items };
}

impl Orders {
    /// Parses the lines of a text. More than 1,048,576 octets give `TooLong`; else more than 65,536 lines give
    /// `TooMany`; else a line that isn't in the grammar gives `Line` with the number of the first such line, from 1. A
    /// stamp below that of the line before isn't in the grammar. If memory runs out, the error is `Memory`.
    pub fn parse(alloc: Global, text: &[u8]) -> Result<Orders, OrderFault>
        ensures ok { IfOk result (λ orders. AreLines (text_lines text.now) orders) }
        ensures within { IfOk result (λ orders. IsWithin text.now) }
        ensures too_long { IsErrOf result OrderFault.TooLong ↔ (MOST_OCTETS < length text.now) }
        ensures too_many { IsErrOf result OrderFault.TooMany ↔ ((length text.now ≤ MOST_OCTETS) × (MOST_LINES < length (text_lines text.now))) }
        ensures bad { (n : ℕ) → IsErrOf result (OrderFault.Line n) → IsWithin text.now × IsFirstBad (text_lines text.now) n }
    {
        if text.len() > MOST_OCTETS {
            return Err(OrderFault::TooLong);
        }
        if count_lines(text) > MOST_LINES {
            return Err(OrderFault::TooMany);
        }
        let items = orders_of(alloc, text)?;
        Ok(Orders { items })
    }

    /// The orders, in the order of their lines.
    pub fn list(&self) -> &[Order]
        ensures value { result.now ≡ self.now }
        ensures orders { AreOrders self.now }
    {
        self.items.as_slice()
    }
}
