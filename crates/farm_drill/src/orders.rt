//! The text of a drill's orders. If memory runs out, nothing is said of the text.

ghost use Rattle.std.specs.Prelude.{◌≡◌, ◌++◌, ◌∷◌, [], ◌≤◌, map, filter, OnOk, IfOk, string_bytes};
ghost use Rattle.std.specs.List.{range_with_len};
ghost use Rattle.trau_orders.specs.Text.{text_lines, AreLines, IsWithin};
ghost use Rattle.farm_drill.specs.Orders.{opening, bridging, unbridging, is_bridged, order_text, text_of, drilled_orders};

use std::alloc::{AllocError, Global};

fn put_opening(text: &mut String, call: u32) -> Result<(), AllocError>
    ensures { OnOk result (string_bytes text.new ≡ string_bytes text.old ++ order_text (opening call)) }
{
    write!(text, "0 open {call}\n")
}

// Whether the call is bridged with the next one, if there is one.
fn has_bridge(call: u32) -> bool
    ensures { result ≡ is_bridged call }
{
    call % 4 == 1
}

// The order that begins the call's bridge, if it has one.
fn put_bridging(text: &mut String, periods: u32, call: u32) -> Result<(), AllocError>
    requires { call ≤ 256 }
    ensures { OnOk result (string_bytes text.new ≡ string_bytes text.old ++ text_of (map (bridging periods) (filter is_bridged (call ∷ [])))) }
{
    if !has_bridge(call) {
        return Ok(());
    }
    write!(text, "{} bridge {call} {}\n", periods / 4, call + 1)
}

// The order that ends the call's bridge, if it has one.
fn put_unbridging(text: &mut String, periods: u32, call: u32) -> Result<(), AllocError>
    ensures { OnOk result (string_bytes text.new ≡ string_bytes text.old ++ text_of (map (unbridging periods) (filter is_bridged (call ∷ [])))) }
{
    if !has_bridge(call) {
        return Ok(());
    }
    write!(text, "{} unbridge {call}\n", periods / 2)
}

fn put_openings(text: &mut String, calls: u32) -> Result<(), AllocError>
    requires { calls ≤ 256 }
    ensures { OnOk result (string_bytes text.new ≡ string_bytes text.old ++ text_of (map opening (range_with_len 1 calls))) }
{
    for earlier in 0..calls {
        put_opening(text, 1 + earlier)?;
    }
    Ok(())
}

// The orders that begin the bridges of calls 1 to `count`.
fn put_bridgings(text: &mut String, count: u32, periods: u32) -> Result<(), AllocError>
    requires { count ≤ 256 }
    ensures { OnOk result (string_bytes text.new ≡ string_bytes text.old ++ text_of (map (bridging periods) (filter is_bridged (range_with_len 1 count)))) }
{
    for earlier in 0..count {
        put_bridging(text, periods, 1 + earlier)?;
    }
    Ok(())
}

// The orders that end the bridges of calls 1 to `count`.
fn put_unbridgings(text: &mut String, count: u32, periods: u32) -> Result<(), AllocError>
    requires { count ≤ 256 }
    ensures { OnOk result (string_bytes text.new ≡ string_bytes text.old ++ text_of (map (unbridging periods) (filter is_bridged (range_with_len 1 count)))) }
{
    for earlier in 0..count {
        put_unbridging(text, periods, 1 + earlier)?;
    }
    Ok(())
}

/// The text of a drill's orders.
pub(crate) fn orders_text(alloc: Global, calls: u32, periods: u32) -> Result<Vec<u8>, AllocError>
    requires calls { calls ≤ 256 }
    requires periods { periods ≤ 1000 }
    ensures text { IfOk result (λ text. text.items ≡ text_of (drilled_orders calls periods)) }
    ensures orders { IfOk result (λ text. AreLines (text_lines text.items) (drilled_orders calls periods)) }
    ensures within { IfOk result (λ text. IsWithin text.items) }
{
    let mut text = String::new(alloc);
    put_openings(&mut text, calls)?;
    // The last call has no call after it to be bridged with.
    let followed = calls.saturating_sub(1);
    put_bridgings(&mut text, followed, periods)?;
    put_unbridgings(&mut text, followed, periods)?;
    Ok(text.into_bytes())
}
