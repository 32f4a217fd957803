//! A law of the definitions.

ghost use Rattle.std.specs.Prelude.{◌≡◌, List, reverse};
ghost use Rattle.tx_dtx.specs.Stretch.{Coded};
ghost use Rattle.tx_dtx.specs.Sent.{sent};
ghost use Rattle.tx_dtx.specs.Step.{sent_in_turn};
ghost use Rattle.tx_dtx.specs.Stands.{Stands};

/// Taking frames one after another from the home state sends the frames that the whole stretch sends, and gives a
/// memory that stands for these frames.
pub fn whole_list()
    ensures sent { (frames : List Coded) → (sent_in_turn (reverse frames)).0 ≡ sent frames }
    ensures memory { (past : List Coded) → Stands past (sent_in_turn past).1 }
{}
