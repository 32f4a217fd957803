//! The words of the two commands on time slots.
ghost use Rattle.std.specs.Prelude.{◌≡◌, ℕ, ◌≤◌, IfSome, IsNone, map, string_bytes};
ghost use Rattle.command_words.specs.declared.asked.Asked.{Asked as OneAsked};
ghost use Rattle.command_words.specs.Slots.{AsksSlot, IsSlotOn};

use crate::Asked;
use call_number::LAST_CALL;
use decimal_number::number_of_text;

/// The last call that three more follow.
pub(crate) const HIGHEST_SLOT: u32 = LAST_CALL - 3;

// The command of this name on a slot.
fn slot_named(name: &str, call: u32) -> Option<Asked>
    ensures some { IfSome result (λ a. IsSlotOn a name.now call) }
    ensures none { IsNone result → (a : OneAsked) → IsSlotOn a name.now call → ⊥ }
{
    match name {
        "split" => Some(Asked::Split(call)),
        "merge" => Some(Asked::Merge(call)),
        _ => None,
    }
}

/// The command on a slot that the words ask for, if they ask for one.
pub(crate) fn read_slot(words: &[String]) -> Option<Asked>
    ensures some { IfSome result (λ a. AsksSlot (map (λ w. string_bytes w) words.now) a) }
    ensures none { IsNone result → (a : OneAsked) → AsksSlot (map (λ w. string_bytes w) words.now) a → ⊥ }
{
    let [name, number] = words else {
        return None;
    };
    let call = number_of_text(number.as_str(), 1, HIGHEST_SLOT)?;
    slot_named(name.as_str(), call)
}
