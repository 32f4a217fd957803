//! A law of the definitions.

ghost use Rattle.std.specs.Prelude.{◌≡◌, List, reverse};
ghost use Rattle.trau_params.specs.Fields.{Fields};
ghost use Rattle.fr_decoder.specs.Decoded.{decoded};
ghost use Rattle.fr_decoder.specs.Step.{decoded_in_turn};
ghost use Rattle.fr_decoder.specs.Stands.{Stands};

/// Decoding frames one after another from the home state gives the decoded list, and a memory that stands for these
/// frames.
pub fn whole_list()
    ensures samples { (frames : List Fields) → (decoded_in_turn (reverse frames)).0 ≡ decoded frames }
    ensures memory { (past : List Fields) → Stands past (decoded_in_turn past).1 }
{}
