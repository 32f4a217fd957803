//! Laws of frames, each the contract of a function that does nothing.

ghost use Rattle.std.specs.Prelude.{◌≡◌, ◌≢◌, ◌+◌, ◌<◌, ◌≤◌, ◌↔◌, ℕ, List, length, true};
ghost use Rattle.trau_frame.specs.declared.frames.UpFrame.{UpFrame};
ghost use Rattle.trau_frame.specs.Role.{Role, Sync, role_of, place_of_role, IsRole};
ghost use Rattle.trau_frame.specs.Frame.{Synced};
ghost use Rattle.trau_frame.specs.UpFrame.{Says};
ghost use Rattle.trau_frame.specs.UpBits.{up_bits, FitsKind, SameFrame};
ghost use Rattle.trau_frame.specs.DownFrame.{down_bits};
ghost use Rattle.trau_frame.specs.Match.{is_match};
ghost use Rattle.trau_frame.specs.Relay.{IsGoodSpeech, relayed_bits};

use crate::frames::{Class, DownFrame, Kind};

/// Each place has a role, and each role a place; a control, data or time bit has one place only.
pub fn roles_and_places()
    ensures within { (i : ℕ) → i < 320 → IsRole (role_of i) }
    ensures found { (role : Role) → IsRole role → role_of (place_of_role role) ≡ role }
    ensures only { (i : ℕ) → i < 320 → ((bit : ℕ) → role_of i ≢ Sync bit) → place_of_role (role_of i) ≡ i }
{}

/// A frame that was read is good speech exactly if its bits are, and its data bits give the relayed frame.
pub fn good_speech_is_relayed()
    ensures good { (bits : List ℕ) (f : UpFrame) → length bits ≡ 320 → Synced bits → Says bits f →
        (IsGoodSpeech bits ↔ ((f.kind ≡ Kind.Speech) × (f.class ≡ Class.Good))) }
    ensures relayed { (bits : List ℕ) (f : UpFrame) → Says bits f →
        down_bits (DownFrame.Speech f.d true) ≡ relayed_bits bits }
{}

/// An uplink frame that was written carries the sync pattern, and the same frame is read from it, if its class fits its
/// kind.
pub fn written_uplink_is_read()
    ensures synced { (f : UpFrame) → Synced (up_bits f) }
    ensures says { (f : UpFrame) → length f.d ≡ 260 → FitsKind f.kind f.class → Says (up_bits f) f }
    ensures same { (f g : UpFrame) → length f.d ≡ 260 → FitsKind f.kind f.class → Says (up_bits f) g → SameFrame f g }
{}

/// Two matching places of one line are at least 305 bits apart. If they were nearer, a sync zero of one frame would be
/// a sync one of the other.
pub fn matching_places_stand_apart()
    ensures { (line : ℕ → ℕ) (p q : ℕ) → is_match line p ≡ true → is_match line q ≡ true → p < q → p + 305 ≤ q }
{}
