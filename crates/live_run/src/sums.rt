//! The text of a live drill.

ghost use Rattle.std.specs.Prelude.{◌≡◌, ◌++◌, OnOk, IfOk, string_bytes};
ghost use Rattle.std.specs.List.{flat_map};
ghost use Rattle.trau_bits.specs.Bits.{bits_of, octets_of};
ghost use Rattle.farm_report.specs.Sums.{sum_of};
ghost use Rattle.farm_live.specs.Whole.{outs_of, downs_of};
ghost use Rattle.live_run.specs.Text.{closed_line, last_line};

use farm_live::{Closed, Entry};
use farm_report::{put_sums, sum};
use std::alloc::{AllocError, Global};

// The sums of a call's outgoing lines, modulo 2^32.
#[derive(Clone, Copy)]
struct Sums {
    out: u32,
    down: u32,
}

// The sum of a period's octets of the Down line.
fn sum_down(down: &[u8; 40]) -> u32
    ensures { result ≡ sum_of (octets_of (bits_of down.now)) }
{
    sum(down)
}

// The sums of a history's octets on the outgoing lines.
fn sums_of(entries: &[Entry]) -> Sums
    ensures out { result.out ≡ sum_of (outs_of entries.now) }
    ensures down { result.down ≡ sum_of (octets_of (bits_of (downs_of entries.now))) }
{
    let mut sums = Sums { out: 0, down: 0 };
    for entry in entries {
        sums.out = sums.out.wrapping_add(sum(&entry.out));
        sums.down = sums.down.wrapping_add(sum_down(&entry.down));
    }
    sums
}

// Appends the sums of a closed call to a text.
fn put_call(text: &mut String, closed: &Closed) -> Result<(), AllocError>
    ensures { OnOk result
        (string_bytes text.new ≡ string_bytes text.old ++ closed_line closed.now) }
{
    let sums = sums_of(closed.entries.as_slice());
    put_sums(text, closed.call, sums.out, sums.down)
}

// Appends the sums of closed calls, in their order, to a text.
fn put_calls(text: &mut String, closed: &[Closed]) -> Result<(), AllocError>
    ensures { OnOk result
        (string_bytes text.new ≡ string_bytes text.old ++ flat_map closed_line closed.now) }
{
    for one in closed {
        put_call(text, one)?;
    }
    Ok(())
}

/// The text: the sums of the closed calls, in their order, and a line with the numbers of periods and calls.
pub(crate) fn text_of(
    alloc: Global,
    closed: &[Closed],
    periods: u32,
    calls: u32,
) -> Result<String, AllocError>
    ensures { IfOk result (λ text.
        string_bytes text ≡ flat_map closed_line closed.now ++ last_line periods calls) }
{
    let mut text = String::new(alloc);
    put_calls(&mut text, closed)?;
    write!(text, "live periods {periods} calls {calls}\n")?;
    Ok(text)
}
