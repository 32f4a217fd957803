//! The top function: the words in, the octets and the text out, and the status.

ghost use Rattle.std.specs.Prelude.{◌≡◌, ◌≢◌, ◌⊎◌, ℕ, codes};
ghost use Rattle.block_lines.specs.Command.{status_of};
ghost use Rattle.command_words.specs.declared.asked.Settings.{Settings};
ghost use Rattle.command_words.specs.declared.live.LiveSettings.{LiveSettings};
ghost use Rattle.farm_top.specs.Farm.{AllStay, LacksMemory, TextOut};
ghost use Rattle.farm_top.specs.Promises.{DrillPromise, LinePromise, LivePromise, ResumePromise, RunPromise, SavePromise};
ghost use Rattle.farm_top.specs.Top.{CarriesAsked, IsInRange};
ghost use Rattle.farm_top.specs.Words.{AreCommand, AsksForDrill, AsksForLive, AsksForResume, AsksForRun, AsksForSave, TakeOptions, spelled};

use crate::drill::drill_farm;
use crate::farm::{no_memory, refuse, run_farm};
use crate::follow::carry_follow;
use crate::lines::{carry_frames, carry_merge, carry_split, carry_tool};
use crate::live::live_farm;
use crate::resume::resume_farm;
use crate::save::save_farm;
use crate::status::{DESK_WRITE_FAULT, DONE, FRAME_REFUSED, LINE_FAILED, NO_MEMORY, USAGE};
use command_words::{Asked, WordsFault, read_words};
use farm_tools::{Tool, ToolEnd};
use pool_run::Gate;
use std::alloc::Global;
use std::sync::Wait;
use std::thread::Threads;
use trau_io::{Desk, Trunk};

/// The status of a tool's end.
pub(crate) fn status_of_end(end: ToolEnd) -> u8
    ensures { result ≡ status_of end }
{
    match end {
        ToolEnd::Done => DONE,
        ToolEnd::LineFault(_) => LINE_FAILED,
        ToolEnd::DeskFault => DESK_WRITE_FAULT,
        ToolEnd::Refused(_) => FRAME_REFUSED,
        ToolEnd::Memory => NO_MEMORY,
    }
}

// Runs the command that is asked for.
fn carry_out<R: Threads + Wait + Sync, T: Trunk, D: Desk, G: Gate + Sync>(
    rt: &R,
    alloc: Global,
    asked: Asked,
    trunk: &mut T,
    desk: &mut D,
    gate: &G,
) -> u8
    requires { IsInRange asked }
    ensures { CarriesAsked asked (T.lines trunk.old) (T.lines trunk.new) (D.desk desk.old) (D.desk desk.new) result }
{
    match asked {
        Asked::Run(settings) => run_farm(rt, alloc, settings, trunk, desk, gate),
        Asked::Save(settings) => save_farm(rt, alloc, settings, trunk, desk, gate),
        Asked::Resume(settings) => resume_farm(rt, alloc, settings, trunk, desk, gate),
        Asked::Drill {
            seed,
            calls,
            settings,
        } => drill_farm(rt, alloc, seed, calls, settings, desk, gate),
        Asked::Live(settings) => live_farm(rt, alloc, settings, desk, gate),
        Asked::Relay(call) => carry_tool(Tool::Relay, call, trunk, desk),
        Asked::Decode(call) => carry_tool(Tool::Decode, call, trunk, desk),
        Asked::Encode(call) => carry_tool(Tool::Encode, call, trunk, desk),
        Asked::Frames(call) => carry_frames(call, trunk, desk),
        Asked::Follow { call, want } => carry_follow(call, want, trunk, desk),
        Asked::Split(call) => carry_split(call, trunk, desk),
        Asked::Merge(call) => carry_merge(call, trunk, desk),
    }
}

/// Runs the command that the words name on the lines of the trunk, prints its text to the desk, and returns the status.
/// The options of each command, its text line by line and examples are on its page in docs/commands.
///
/// `relay C` copies the good speech frames of call C's uplink, bits unchanged, to its downlink; `decode C` decodes them
/// to its Out line. The first block of 40 octets that isn't a good speech frame ends either. `encode C` encodes the
/// call's Pcm line, in blocks of 160 octets, to downlink frames. C is 1 to 4,096.
///
/// `frames C` searches call C's uplink for frames and prints a line of text for each yield of the search.
///
/// `split C` cuts the time slot on call C's Pcm line, 64 kbit/s, into its four channels of 16 kbit/s, on the Down lines
/// of the calls C to C + 3. `merge C` joins the channels on the Up lines of these calls into the slot on C's Out line.
/// C is 1 to 4,093.
///
/// `follow C W` is the base station's end. It takes call C's Up line as a recorded downlink, finds its frames at any
/// bit, and prints a line of text for each. To Down it writes what a base station that wants frames at places W modulo
/// 320 would send up: the speech that it heard, and the alignment that it asks for. W is 0 to 316 and a multiple of 4.
///
/// These seven commands take no memory, and their status is never 5.
///
/// `run` reads orders from the desk, runs them over the lines of all calls, 1 to 4,096, and prints the report, which
/// names the lines that failed. Workers steal calls half done from one another, and each slice of a call passes the
/// gate.
///
/// `save` and `resume` are a run in two parts. `save` prints, in place of the report, the mark of the run at its end:
/// for each call that only the run's end cut off, its number, its opening and the sums of the octets of its outgoing
/// lines. If a line failed, it prints the lines that failed and no mark. `resume` reads a mark and the orders after it,
/// and processes the same recordings from the start. It holds back the octets of the periods before the mark's,
/// compares the mark there, and writes what follows. Its report is that of the whole run.
///
/// `drill` draws the lines of some calls from a seed, runs orders over them in memory, and prints the report, followed
/// by the sums of the octets of each call's outgoing lines.
///
/// `live` draws the periods of some calls from a seed. Callers, each on a thread of its own, post them to a live farm.
/// It prints the sums of the octets of each call's outgoing lines.
///
/// `run`, `save`, `resume`, `drill` and `live` wait for their threads: what is said of them holds if `farm_top`
/// returns. That the other commands return is proved of their functions in `farm_tools`, `trau_submux` and `ccu_end`.
/// It isn't proved of `farm_top`, which waits as a whole.
///
/// The statuses, each with the text on the desk:
///
/// - 0: the incoming line was processed to its end, or to 4,294,967,295 blocks; the run or the drill ended and no fault
///   of a line was counted, also of `save` and `resume`; the live drill ended. Text: `relay frames N`, `decode frames
///   N`, `encode frames N left R`; `frames N left R` after a line of text for each of its N yields; `split octets N
///   left R`, `merge octets N left A B C D`; `follow frames N left R` after a line of text for each of its N frames;
///   the report; the mark; the report and the sums; the sums.
/// - 1: exactly if the words aren't those of a command (or 5, if the first word is `run`, `save`, `resume`, `drill` or
///   `live`). Text: `usage`.
/// - 2: a line of the orders isn't in their grammar, N being the first, which `resume` counts from the first line after
///   the mark; of `resume` also a line of the mark, N being the first. Text: `orders line N`; `save line N`.
/// - 3: the desk failed while the orders were read, or the mark before them. Text: `orders unread`.
/// - 4: the desk failed while the command's text went out. Text: a proper prefix of the command's text.
/// - 5: out of memory; never of a command on lines. Text: `no memory`.
/// - 6: a fault of a line of the command was counted. Text: `line C up failed`, with the line's side, after the lines
///   of text that `frames` or `follow` had printed; the report; of `save` only its lines for the lines that failed.
/// - 7: the orders have more than 1,048,576 octets or more than 65,536 lines; of `resume` also the whole text more than
///   1,310,720 octets. Text: `orders too long`.
/// - 8: only of `relay` and `decode`: a block of the uplink isn't a good speech frame, or the line ended inside it.
///   Text: `relay refused N`, `decode refused N`, N being the number of blocks before it.
/// - 9: only of `resume`: exactly (or 5) if the mark's calls aren't those of the run to the mark's period, C being the
///   least number that differs; no outgoing line was used. Text: `save differs C`.
///
/// If several are due in `run` or `save`, the first of 3, 7, 2, 4 and 6 wins. In `resume` it is the first of 3, 7 for
/// the whole text, 2 for the mark, 7 for the orders, 2 for the orders, 9, 4 and 6. In all three, 5 may replace any but
/// 3, and with 2, 3 and 7 no line was used. A desk that fails while the text of 1, 2, 3, 5, 7 or 9 goes out doesn't
/// change the status.
pub fn farm_top<R: Threads + Wait + Sync, T: Trunk, D: Desk, G: Gate + Sync>(
    rt: &R,
    alloc: Global,
    words: &[String],
    trunk: &mut T,
    desk: &mut D,
    gate: &G,
) -> u8
    // The status is 1 exactly if the words aren't those of a command; then no line is used. If the first word is `run`,
    // `save`, `resume`, `drill` or `live`, memory may run out instead.
    ensures usage { (AreCommand (spelled words.now) → ⊥) →
        (result ≡ 1) ⊎ (TakeOptions (spelled words.now) × LacksMemory (D.desk desk.old) (D.desk desk.new) result) }
    ensures usage_only { AreCommand (spelled words.now) → result ≢ 1 }
    ensures usage_text { result ≡ 1 → TextOut (D.desk desk.old) (D.desk desk.new) (codes "usage\n") }
    ensures unused { (AreCommand (spelled words.now) → ⊥) → AllStay (T.lines trunk.old) (T.lines trunk.new) }

    // What is promised of each command: what it does, why the status is what it is, what it leaves whatever fails, and
    // what exactly if nothing fails. The headline is a field of the promise of `run`.
    ensures run { (s : Settings) → AsksForRun (spelled words.now) s →
        RunPromise s (T.lines trunk.old) (T.lines trunk.new) (D.desk desk.old) (D.desk desk.new) result }
    ensures save { (s : Settings) → AsksForSave (spelled words.now) s →
        SavePromise s (T.lines trunk.old) (T.lines trunk.new) (D.desk desk.old) (D.desk desk.new) result }
    ensures resume { (s : Settings) → AsksForResume (spelled words.now) s →
        ResumePromise s (T.lines trunk.old) (T.lines trunk.new) (D.desk desk.old) (D.desk desk.new) result }
    ensures drill { (seed calls : ℕ) (s : Settings) → AsksForDrill (spelled words.now) seed calls s →
        DrillPromise seed calls s (T.lines trunk.old) (T.lines trunk.new) (D.desk desk.old) (D.desk desk.new) result }
    ensures live { (s : LiveSettings) → AsksForLive (spelled words.now) s →
        LivePromise s (T.lines trunk.old) (T.lines trunk.new) (D.desk desk.old) (D.desk desk.new) result }
    ensures lines { LinePromise (spelled words.now) (T.lines trunk.old) (T.lines trunk.new) (D.desk desk.old) (D.desk desk.new) result }
{
    // Laws: lines spell at most one list of orders, and if they do, none is bad; a text begins with at most one mark,
    // and if it does, no line of the mark is bad; a run is joined of two; a saved mark is taken again.
    trau_orders::laws::one_answer();
    farm_checkpoint::laws::one_answer();
    run_spec::laws::a_run_is_joined_of_two();
    crate::laws::a_saved_mark_is_taken();
    match read_words(alloc, words) {
        Ok(asked) => carry_out(rt, alloc, asked, trunk, desk, gate),
        Err(WordsFault::Usage) => refuse(desk, b"usage\n", USAGE),
        Err(WordsFault::Memory) => no_memory(desk),
    }
}
