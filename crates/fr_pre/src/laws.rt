//! A law of the definitions.

ghost use Rattle.std.specs.Prelude.{◌≡◌, ℤ, List, ◌∷◌, ◌++◌};
ghost use Rattle.fr_pre.specs.History.{samples_of_frames, preprocessed, newest_preprocessed};

/// Preprocessing a whole list of samples gives the same as preprocessing its frames one after another.
pub fn one_list()
    ensures { (frame : List ℤ) (past : List (List ℤ)) →
        preprocessed (samples_of_frames (frame ∷ past)) ≡ preprocessed (samples_of_frames past) ++ newest_preprocessed frame past }
{}
