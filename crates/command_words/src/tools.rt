//! The words of the tools (`relay`, `decode`, `encode`) and of `frames`.

ghost use Rattle.std.specs.Prelude.{◌≡◌, ℕ, ◌≤◌, IfSome, IsNone, map, string_bytes};
ghost use Rattle.command_words.specs.declared.asked.Asked.{Asked as OneAsked};
ghost use Rattle.command_words.specs.Asking.{AsksTool, IsToolOn};

use crate::Asked;
use call_number::LAST_CALL;
use decimal_number::number_of_text;

// The tool of this name on a call.
fn tool_named(name: &str, call: u32) -> Option<Asked>
    ensures some { IfSome result (λ a. IsToolOn a name.now call) }
    ensures none { IsNone result → (a : OneAsked) → IsToolOn a name.now call → ⊥ }
{
    match name {
        "relay" => Some(Asked::Relay(call)),
        "frames" => Some(Asked::Frames(call)),
        "encode" => Some(Asked::Encode(call)),
        "decode" => Some(Asked::Decode(call)),
        _ => None,
    }
}

/// The tool that the words ask for, with its call, if they ask for one.
pub(crate) fn read_tool(words: &[String]) -> Option<Asked>
    ensures some { IfSome result (λ a. AsksTool (map (λ w. string_bytes w) words.now) a) }
    ensures none { IsNone result → (a : OneAsked) → AsksTool (map (λ w. string_bytes w) words.now) a → ⊥ }
{
    let [name, number] = words else {
        return None;
    };
    let call = number_of_text(number.as_str(), 1, LAST_CALL)?;
    tool_named(name.as_str(), call)
}
