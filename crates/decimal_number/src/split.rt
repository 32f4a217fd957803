//! Splitting of octets.

ghost use Rattle.std.specs.Prelude.{IsNone, IfSome};
ghost use Rattle.decimal_number.specs.Splits.{Lacks, SplitsAt};

/// The octets before the first `octet` of a list, and those after it; `None` if the list has no such octet.
pub fn split_at_octet(octets: &[u8], octet: u8) -> Option<(&[u8], &[u8])>
    ensures some { IfSome result (λ parts. SplitsAt octet octets.now parts.0.now parts.1.now) }
    ensures none { IsNone result → Lacks octet octets.now }
{
    let place = octets.iter().position(|other| *other == octet)?;
    Some((&octets[..place], &octets[place + 1..]))
}
