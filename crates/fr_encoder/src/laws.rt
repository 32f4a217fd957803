//! A law of the definitions.

ghost use Rattle.std.specs.Prelude.{◌≡◌, ℤ, List, reverse};
ghost use Rattle.fr_encoder.specs.Encoded.{encoded};
ghost use Rattle.fr_encoder.specs.Step.{encoded_in_turn};
ghost use Rattle.fr_encoder.specs.Stands.{Stands};

/// Encoding frames one after another from the home state gives the encoded list, and a memory that stands for these
/// frames.
pub fn whole_list()
    ensures encodings { (frames : List (List ℤ)) → (encoded_in_turn (reverse frames)).0 ≡ encoded frames }
    ensures memory { (past : List (List ℤ)) → Stands past (encoded_in_turn past).1 }
{}
