//! Decimal numbers in the words of a command line, in the lines of orders and in those of a mark.
//!
//! Layer: Numbers, bits and lines.
//!
//! The functions take a text or octets and a range, and give the number that they spell, if they spell one.
//! `command_words`, `trau_orders` and `farm_checkpoint` accept no other spelling. The latter two also split their lines
//! here, at an octet.
//!
//! The spelling is this project's profile: digits without a sign, a space or a leading zero.
//!
//! Definitions: `specs/Number.antt`, `specs/Splits.antt`. `proofs/Numbers.antt` has lemmas for other crates.
#![tactic(auto)]

mod split;

ghost use Rattle.std.specs.Prelude.{◌↔◌, ℕ, IsTrue, IsNone, IfSome};
ghost use Rattle.decimal_number.specs.Number.{IsPlain, IsNumber, SpellsOneNumber};

pub use split::split_at_octet;

/// The number from `low` to `high` that a whole text spells. If `low` is above `high` there is none.
pub fn number_of_text(text: &str, low: u32, high: u32) -> Option<u32>
    ensures some { IfSome result (λ n. IsNumber low high text.now n) }
    ensures none { IsNone result → (n : ℕ) → IsNumber low high text.now n → ⊥ }
{
    if !is_plain(text.as_bytes()) {
        return None;
    }
    match text.parse::<u32>() {
        Ok(number) if low <= number && number <= high => Some(number),
        _ => None,
    }
}

/// The same for octets, which need not be UTF-8.
pub fn number_of_octets(octets: &[u8], low: u32, high: u32) -> Option<u32>
    ensures some { IfSome result (λ n. IsNumber low high octets.now n) }
    ensures none { IsNone result → (n : ℕ) → IsNumber low high octets.now n → ⊥ }
{
    match str::from_utf8(octets) {
        Ok(text) => number_of_text(text, low, high),
        Err(_) => None,
    }
}

/// A law: no text spells two numbers, in any ranges.
pub fn spells_one_number()
    ensures { SpellsOneNumber }
{}

// The standard library's parser also takes a sign and leading zeros, so these are refused first.
fn is_plain(octets: &[u8]) -> bool
    ensures { IsTrue result ↔ IsPlain octets.now }
{
    match octets {
        [] => false,
        [only] => *only >= b'0',
        [first, ..] => *first > b'0',
    }
}
