//! A text of orders, line by line.

ghost use Rattle.std.specs.Prelude.{◌≡◌, ◌∷◌, [], ◌<◌, ◌≤◌, ℕ, length, IfOk, IfSome, IsErrOf, IsNone, OnSome};
ghost use Rattle.trau_orders.specs.Grammar.{IsLine};
ghost use Rattle.trau_orders.specs.Text.{text_lines, AreLines, IsFirstBad, IsNoEarlier};
ghost use Rattle.trau_orders.specs.declared.order.Order.{Order as OneOrder};

use crate::line::order_of;
use crate::{Order, OrderFault};
use decimal_number::split_at_octet;
use std::alloc::Global;

/// The first line of a text, without its LF, and the rest of the text.
pub(crate) fn split_line(text: &[u8]) -> Option<(&[u8], &[u8])>
    ensures some { IfSome result (λ parts. text_lines text.now ≡ parts.0.now ∷ text_lines parts.1.now) }
    ensures shorter { IfSome result (λ parts. length parts.1.now < length text.now) }
    ensures none { IsNone result → text.now ≡ [] }
{
    if text.is_empty() {
        return None;
    }
    split_at_octet(text, b'\n').or(Some((text, &[])))
}

/// The number of lines.
pub(crate) fn count_lines(text: &[u8]) -> usize
    ensures { result ≡ length (text_lines text.now) }
{
    let mut count = 0;
    let mut rest = text;
    while let Some((_, after)) = split_line(rest) {
        count += 1;
        rest = after;
    }
    count
}

// The order of the line after these orders. Its stamp must not be below that of the last order.
fn next_order(line: &[u8], orders: &[Order]) -> Option<Order>
    ensures some { IfSome result (λ order. IsLine line.now order × IsNoEarlier orders.now order) }
    ensures none { IsNone result → (order : OneOrder) → IsLine line.now order → IsNoEarlier orders.now order → ⊥ }
{
    let order = order_of(line)?;
    match orders.last() {
        Some(before) if order.stamp < before.stamp => None,
        _ => Some(order),
    }
}

/// The orders of a text with at most 65,536 lines.
pub(crate) fn orders_of(alloc: Global, text: &[u8]) -> Result<Vec<Order>, OrderFault>
    requires { length (text_lines text.now) ≤ 65536 }
    ensures ok { IfOk result (λ orders. AreLines (text_lines text.now) orders.items) }
    ensures bad { (n : ℕ) → IsErrOf result (OrderFault.Line n) → IsFirstBad (text_lines text.now) n }
    ensures known { (IsErrOf result OrderFault.TooLong → ⊥) × (IsErrOf result OrderFault.TooMany → ⊥) }
{
    let mut orders = Vec::new(alloc);
    let mut rest = text;
    while let Some((line, after)) = split_line(rest) {
        let Some(order) = next_order(line, &orders) else {
            return Err(OrderFault::Line(orders.len() as u32 + 1));
        };
        orders.push(order)?;
        rest = after;
    }
    Ok(orders)
}
