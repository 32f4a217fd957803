//! The sums of octets of outgoing lines, as text.

ghost use Rattle.std.specs.Prelude.{◌≡◌, ◌++◌, ◌^◌, ◌%◌, OnOk, string_bytes};
ghost use Rattle.farm_report.specs.Sums.{sum_of, sums_told};

use std::alloc::AllocError;

/// The sum of octets, modulo 2^32.
pub fn sum(octets: &[u8]) -> u32
    ensures { result ≡ sum_of octets.now }
{
    let mut sum = 0u32;
    for octet in octets {
        sum = sum.wrapping_add(*octet as u32);
    }
    sum
}

/// Appends a line with the sums of a call's outgoing lines.
pub fn put_sums(text: &mut String, call: u32, out: u32, down: u32) -> Result<(), AllocError>
    ensures { OnOk result (string_bytes text.new ≡ string_bytes text.old ++ sums_told call out down) }
{
    write!(text, "sum {call} out {out} down {down}\n")
}
