//! The functions of a call, with what they add to its recording.

ghost use Rattle.std.specs.Prelude.{◌≡◌, ℕ, ℤ, Bool, true, None, IfSome, List, [], ◌∷◌};
ghost use Rattle.rtp_session.specs.Outgoing.{IsMedia};
ghost use Rattle.rtp_call.specs.Call.{IsReady, BeginsCall, RecordsInput, SpeaksToStation, SpeaksToExchange};
ghost use Rattle.call_records.specs.Turns.{Turn, alone, paired};
ghost use Rattle.call_records.specs.Recorded.{IsRecorded};
ghost use Rattle.call_records.specs.Runs.{RunsWriteRecorded};

use call_coders::Record;
use rtp_call::{Call, Datagrams, PairDatagrams, Records, Settings};

/// Begins a call (`Call::home`): nothing of it is recorded yet.
pub fn begin(settings: &Settings, random: &[u8; 20]) -> Option<Call>
    ensures recorded { IfSome result (λ call. IsRecorded settings.now.number [] call) }
    ensures some { IfSome result (λ call. BeginsCall settings.now random.now call) }
    ensures none { result ≡ None → IsMedia settings.now.gsm → IsMedia settings.now.pcm → ⊥ }
    ensures ready { IfSome result (λ call. IsReady call) }
{
    Call::home(settings, random)
}

/// Processes a period of a call that is in no bridge (`Call::turn`).
pub fn turn(
    call: &mut Call,
    tick: u32,
    level: i16,
    dtx: bool,
    recorded: &mut Record,
    datagrams: &mut Datagrams,
) -> bool
    requires { IsReady call.old }

    // The recording has one turn more.
    ensures recorded { (number : ℕ) (past : List Turn) → IsRecorded number past call.old →
        IsRecorded number (alone recorded.new level dtx ∷ past) call.new }

    // Whatever run has the lines and orders of the recording writes the recorded lines.
    ensures runs { (number : ℕ) (past : List Turn) → IsRecorded number past call.old →
        RunsWriteRecorded number call.old.law (alone recorded.new level dtx ∷ past) }

    // As of `Call::turn`: what is recorded as Up and Pcm came, and both sides get what is recorded as Down and Out.
    ensures input { RecordsInput call.old call.new tick recorded.new.up recorded.new.pcm }
    ensures gsm { SpeaksToStation call.old call.new tick recorded.new.down datagrams.new.gsm result }
    ensures pcm { SpeaksToExchange call.old call.new tick recorded.new.out datagrams.new.pcm }
    ensures law { call.new.law ≡ call.old.law }
    ensures ready { IsReady call.new }
{
    crate::laws::turns_are_recorded();
    crate::laws::runs_write_what_was_recorded();
    call.turn(tick, level, dtx, recorded, datagrams)
}

/// Processes a period of the two calls of a bridge (`rtp_call::turn_pair`).
pub fn turn_pair(
    one: &mut Call,
    other: &mut Call,
    tick: u32,
    records: &mut Records,
    datagrams: &mut PairDatagrams,
)
    requires one { IsReady one.old }
    requires other { IsReady other.old }

    // Both recordings have one turn more. The level and the DTX are those that are in force.
    ensures recorded { (number other_number : ℕ) (past other_past : List Turn) (level other_level : ℤ) (dtx other_dtx : Bool) →
        IsRecorded number past one.old → IsRecorded other_number other_past other.old →
        IsRecorded number (paired records.new.one level dtx other_number records.new.other other_past ∷ past) one.new
        × IsRecorded other_number (paired records.new.other other_level other_dtx number records.new.one past ∷ other_past) other.new }

    // Whatever run has the lines and orders of the recordings writes the recorded lines of both calls.
    ensures runs { (number other_number : ℕ) (past other_past : List Turn) (level other_level : ℤ) (dtx other_dtx : Bool) →
        IsRecorded number past one.old → IsRecorded other_number other_past other.old →
        RunsWriteRecorded number one.old.law (paired records.new.one level dtx other_number records.new.other other_past ∷ past)
        × RunsWriteRecorded other_number other.old.law (paired records.new.other other_level other_dtx number records.new.one past ∷ other_past) }

    // As of `rtp_call::turn_pair`.
    ensures input { RecordsInput one.old one.new tick records.new.one.up records.new.one.pcm
        × RecordsInput other.old other.new tick records.new.other.up records.new.other.pcm }
    ensures gsm { SpeaksToStation one.old one.new tick records.new.one.down datagrams.new.one.gsm true
        × SpeaksToStation other.old other.new tick records.new.other.down datagrams.new.other.gsm true }
    ensures pcm { SpeaksToExchange one.old one.new tick records.new.one.out datagrams.new.one.pcm
        × SpeaksToExchange other.old other.new tick records.new.other.out datagrams.new.other.pcm }
    ensures laws { (one.new.law ≡ one.old.law) × (other.new.law ≡ other.old.law) }
    ensures ready { IsReady one.new × IsReady other.new }
{
    crate::laws::turns_are_recorded();
    crate::laws::runs_write_what_was_recorded();
    rtp_call::turn_pair(one, other, tick, records, datagrams);
}
