//! One line of the orders.

ghost use Rattle.std.specs.Prelude.{◌≡◌, ◌∷◌, [], ℕ, ℤ, pos, ◌≤ℤ◌, true, false, IfSome, IsNone, codes, decimal, unsigned_abs};
ghost use Rattle.trau_alaw.specs.declared.Law.TheVariants.{Mu};
ghost use Rattle.call_number.specs.CallNumber.{IsCallNumber};
ghost use Rattle.trau_orders.specs.Grammar.{words_of, mode_word, AreWords, IsLine};
ghost use Rattle.trau_orders.specs.declared.order.DtxMode.{DtxMode as Mode};
ghost use Rattle.trau_orders.specs.declared.order.What.{What as OneWhat};
ghost use Rattle.trau_orders.specs.declared.order.Order.{Order as OneOrder};

use crate::{DtxMode, Order, What};
use call_number::LAST_CALL;
use decimal_number::{number_of_octets, split_at_octet};
use trau_alaw::Law;

/// The highest stamp of an order.
pub(crate) const LAST_STAMP: u32 = 4_294_967_294;

const HIGHEST_LEVEL: u32 = 32_767;

/// The order that a line, without its LF, spells.
pub(crate) fn order_of(line: &[u8]) -> Option<Order>
    ensures some { IfSome result (λ order. IsLine line.now order) }
    ensures none { IsNone result → (order : OneOrder) → IsLine line.now order → ⊥ }
{
    let (stamp, words) = split_at_octet(line, b' ')?;
    let stamp = number_of_octets(stamp, 0, LAST_STAMP)?;
    let what = what_of(words)?;
    Some(Order { stamp, what })
}

// Parses the words after the stamp.
fn what_of(words: &[u8]) -> Option<What>
    ensures some { IfSome result (λ what. AreWords (words_of words.now) what) }
    ensures none { IsNone result → (what : OneWhat) → AreWords (words_of words.now) what → ⊥ }
{
    let (verb, rest) = split_at_octet(words, b' ')?;
    match split_at_octet(rest, b' ') {
        None => of_two(verb, rest),
        Some((call, more)) => of_three(verb, call, more),
    }
}

fn of_two(verb: &[u8], call: &[u8]) -> Option<What>
    ensures some { IfSome result (λ what. AreWords (verb.now ∷ call.now ∷ []) what) }
    ensures none { IsNone result → (what : OneWhat) → AreWords (verb.now ∷ call.now ∷ []) what → ⊥ }
{
    let call = call_of(call)?;
    if is_word(verb, b"open") {
        Some(What::OpenCall { call, law: Law::A })
    } else if is_word(verb, b"close") {
        Some(What::CloseCall(call))
    } else if is_word(verb, b"unbridge") {
        Some(What::Unbridge(call))
    } else {
        None
    }
}

fn of_three(verb: &[u8], call: &[u8], more: &[u8]) -> Option<What>
    ensures some { IfSome result (λ what. AreWords (verb.now ∷ call.now ∷ more.now ∷ []) what) }
    ensures none { IsNone result → (what : OneWhat) → AreWords (verb.now ∷ call.now ∷ more.now ∷ []) what → ⊥ }
{
    let call = call_of(call)?;
    if is_word(verb, b"open") {
        Some(What::OpenCall {
            call,
            law: law_of(more)?,
        })
    } else if is_word(verb, b"bridge") {
        Some(What::Bridge(call, call_of(more)?))
    } else if is_word(verb, b"level") {
        Some(What::Level(call, level_of(more)?))
    } else if is_word(verb, b"dtx") {
        Some(What::Dtx(call, mode_of(more)?))
    } else {
        None
    }
}

/// Whether a word is this one.
pub(crate) fn is_word(word: &[u8], name: &[u8]) -> bool
    ensures yes { result ≡ true → word.now ≡ name.now }
    ensures no { result ≡ false → word.now ≡ name.now → ⊥ }
{
    word == name
}

/// The call that a word spells.
pub(crate) fn call_of(word: &[u8]) -> Option<u32>
    ensures some { IfSome result (λ call. IsCallNumber call × (word.now ≡ decimal call)) }
    ensures none { IsNone result → (call : ℕ) → IsCallNumber call → word.now ≡ decimal call → ⊥ }
{
    number_of_octets(word, 1, LAST_CALL)
}

/// The law that a word names. A-law has no word.
pub(crate) fn law_of(word: &[u8]) -> Option<Law>
    ensures some { IfSome result (λ law. (law ≡ Mu) × (word.now ≡ codes "mulaw")) }
    ensures none { IsNone result → word.now ≡ codes "mulaw" → ⊥ }
{
    is_word(word, b"mulaw").then_some(Law::Mu)
}

/// The level that a word spells.
pub(crate) fn level_of(word: &[u8]) -> Option<i16>
    ensures some { IfSome result (λ v. (pos 0 ≤ℤ v) × (v ≤ℤ pos 32767) × (word.now ≡ decimal (unsigned_abs v))) }
    ensures none { IsNone result → (v : ℤ) → pos 0 ≤ℤ v → v ≤ℤ pos 32767 → word.now ≡ decimal (unsigned_abs v) → ⊥ }
{
    let level = number_of_octets(word, 0, HIGHEST_LEVEL)?;
    Some(level as i16)
}

/// The mode that a word names.
pub(crate) fn mode_of(word: &[u8]) -> Option<DtxMode>
    ensures some { IfSome result (λ mode. word.now ≡ mode_word mode) }
    ensures none { IsNone result → (mode : Mode) → word.now ≡ mode_word mode → ⊥ }
{
    if is_word(word, b"on") {
        Some(DtxMode::On)
    } else if is_word(word, b"off") {
        Some(DtxMode::Off)
    } else if is_word(word, b"uplink") {
        Some(DtxMode::Uplink)
    } else {
        None
    }
}
