//! The words of the base station's end, `follow`.

ghost use Rattle.std.specs.Prelude.{◌≡◌, ◌≤◌, ◌%◌, ℕ, IfSome, IsNone, map, string_bytes};
ghost use Rattle.command_words.specs.Follow.{IsWanted, NamesFollow};

use call_number::LAST_CALL;
use decimal_number::number_of_text;

// The last wanted place that is below 320 and a multiple of 4.
const HIGHEST_WANT: u32 = 316;

/// The call and the wanted place that `follow` is given.
#[derive(Clone, Copy)]
pub(crate) struct Followed {
    pub(crate) call: u32,
    pub(crate) want: u16,
}

/// The wanted place that a text spells.
pub(crate) fn wanted(text: &str) -> Option<u16>
    ensures some { IfSome result (λ want. IsWanted text.now want) }
    ensures none { IsNone result → (want : ℕ) → IsWanted text.now want → ⊥ }
{
    let want = number_of_text(text, 0, HIGHEST_WANT)?;
    if want % 4 == 0 {
        Some(want as u16)
    } else {
        None
    }
}

/// The call and the wanted place, if the words are those of `follow`.
pub(crate) fn read_follow(words: &[String]) -> Option<Followed>
    ensures some { IfSome result (λ f. NamesFollow (map (λ w. string_bytes w) words.now) f.call f.want) }
    ensures none { IsNone result → (call want : ℕ) → NamesFollow (map (λ w. string_bytes w) words.now) call want → ⊥ }
{
    let [name, number, place] = words else {
        return None;
    };
    if name.as_str() != "follow" {
        return None;
    }
    Some(Followed {
        call: number_of_text(number.as_str(), 1, LAST_CALL)?,
        want: wanted(place.as_str())?,
    })
}
