//! The command `follow`: a recorded downlink is followed to its end.

ghost use Rattle.std.specs.Prelude.{◌≡◌, ◌+◌, ◌<◌, ◌≤◌, ◌%◌, length};
ghost use Rattle.call_number.specs.CallNumber.{IsCallNumber};
ghost use Rattle.trau_io.specs.declared.line.Side.TheVariants.{Up, Down};
ghost use Rattle.trau_io.specs.Lines.{OthersStay};
ghost use Rattle.trau_io.specs.Transfer.{WritesAll};
ghost use Rattle.block_lines.specs.Command.{status_of};
ghost use Rattle.ccu_end.specs.Heard.{frames_of};
ghost use Rattle.ccu_end.specs.Told.{octets_saying};
ghost use Rattle.ccu_end.specs.Follows.{AllButTwo, Follows};
ghost use Rattle.ccu_end.specs.FollowStep.{FollowsOn};
ghost use Rattle.ccu_end.specs.Tool.{CleanFollow, FollowCauses, FollowRun, IsEndOf, TellsLast};

use crate::finds::Heard;
use crate::station::Ccu;
use crate::text::{last_line, lines};
use block_lines::ToolEnd;
use trau_bits::pack;
use trau_io::{Desk, Failed, Filled, Line, Side, Trunk, read_block, tell, write_all};

/// How a followed downlink ended.
#[derive(Clone, Copy)]
pub(crate) enum FollowEnd {
    /// At the end of the line, or after 4,294,967,295 periods. The numbers of frames that were found, and of octets
    /// after the last whole period, fewer than 40.
    Done(u64, u32),
    /// The Up line failed, with the downlink.
    ReadFailed,
    /// The Down line failed, for the answers.
    WriteFailed,
    /// The desk failed.
    DeskFailed,
}

/// How one period ended.
#[derive(Clone, Copy)]
pub(crate) enum PeriodEnd {
    /// It was answered and its frames were listed; their number.
    Taken(u32),
    /// The line ended after this many octets of the period.
    LineEnded(u32),
    ReadFailed,
    WriteFailed,
    DeskFailed,
}

// Sends up the answer of the newest period.
fn send_up<T: Trunk>(ccu: &mut Ccu, call: u32, trunk: &mut T) -> Result<(), Failed>
    requires { IsCallNumber call }
    ensures same { ccu.new ≡ ccu.old }
    ensures this { WritesAll (T.lines trunk.old call Down) (T.lines trunk.new call Down) result
        (octets_saying ccu.old.answer) }
    ensures others { OthersStay (T.lines trunk.old) (T.lines trunk.new) call Down }
{
    let mut bits = [0; 320];
    ccu.answer(&mut bits);
    let mut octets = [0; 40];
    pack(&bits, &mut octets);
    let down = Line {
        call,
        side: Side::Down,
    };
    write_all(trunk, down, &octets)
}

// The number of frames of a period, 0 to 2.
fn count(heard: &Heard) -> u32
    ensures { result ≡ length (frames_of heard.now) }
{
    u32::from(heard.first.is_some()) + u32::from(heard.second.is_some())
}

// Reads one period of the downlink, sends up its answer, and lists its frames.
fn follow_period<T: Trunk, D: Desk>(
    ccu: &mut Ccu,
    call: u32,
    trunk: &mut T,
    desk: &mut D,
) -> PeriodEnd
    requires number { IsCallNumber call }
    requires fewer { ccu.old.periods < 4294967295 }
    ensures period { FollowsOn ccu.old ccu.new (T.lines trunk.old call Up)
        (T.lines trunk.new call Up) (T.lines trunk.old call Down)
        (T.lines trunk.new call Down) (D.desk desk.old) (D.desk desk.new) result }
    ensures others { AllButTwo (T.lines trunk.old) (T.lines trunk.new) call Up Down }
{
    let up = Line {
        call,
        side: Side::Up,
    };
    let mut octets = [0; 40];
    match read_block(trunk, up, &mut octets) {
        Filled::Whole => {}
        Filled::Ended(count) => return PeriodEnd::LineEnded(count as u32),
        Filled::Failed(_) => return PeriodEnd::ReadFailed,
    }
    let heard = ccu.feed(&octets);
    if let Err(_) = send_up(ccu, call, trunk) {
        return PeriodEnd::WriteFailed;
    }
    match tell(desk, lines(&heard).as_bytes()) {
        Ok(()) => PeriodEnd::Taken(count(&heard)),
        Err(_) => PeriodEnd::DeskFailed,
    }
}

// Follows the downlink on a call's Up line up to its end, but for at most 4,294,967,295 periods.
fn follow_line<T: Trunk, D: Desk>(call: u32, want: u16, trunk: &mut T, desk: &mut D) -> FollowEnd
    requires number { IsCallNumber call }
    requires high { want ≤ 316 }
    requires fours { want % 4 ≡ 0 }
    ensures follows { Follows (T.lines trunk.old call Up) (T.lines trunk.new call Up)
        (T.lines trunk.old call Down) (T.lines trunk.new call Down)
        (D.desk desk.old) (D.desk desk.new) want result }
    ensures others { AllButTwo (T.lines trunk.old) (T.lines trunk.new) call Up Down }
{
    let mut ccu = Ccu::new(want);
    let mut frames = 0;
    for _period in 0..u32::MAX {
        match follow_period(&mut ccu, call, trunk, desk) {
            PeriodEnd::Taken(count) => frames += u64::from(count),
            PeriodEnd::LineEnded(left) => return FollowEnd::Done(frames, left),
            PeriodEnd::ReadFailed => return FollowEnd::ReadFailed,
            PeriodEnd::WriteFailed => return FollowEnd::WriteFailed,
            PeriodEnd::DeskFailed => return FollowEnd::DeskFailed,
        }
    }
    FollowEnd::Done(frames, 0)
}

// The end of the tool by that of the downlink, once the last line is written.
fn end_of(call: u32, end: FollowEnd) -> ToolEnd
    requires { IsCallNumber call }
    ensures { IsEndOf call end result }
{
    match end {
        FollowEnd::Done(..) => ToolEnd::Done,
        FollowEnd::ReadFailed => ToolEnd::LineFault(Line {
            call,
            side: Side::Up,
        }),
        FollowEnd::WriteFailed => ToolEnd::LineFault(Line {
            call,
            side: Side::Down,
        }),
        FollowEnd::DeskFailed => ToolEnd::DeskFault,
    }
}

// Prints the last line of text.
fn tell_last<D: Desk>(call: u32, end: FollowEnd, desk: &mut D) -> ToolEnd
    requires { IsCallNumber call }
    ensures { TellsLast call end (D.desk desk.old) (D.desk desk.new) result }
{
    match tell(desk, last_line(call, end).as_bytes()) {
        Ok(()) => end_of(call, end),
        Err(_) => ToolEnd::DeskFault,
    }
}

/// Follows a call's Up line as a recorded downlink, in periods of 40 octets.
///
/// For each period it writes the answer to the call's Down line: an uplink frame of 40 octets, which asks for the
/// alignment to places that are `want` modulo 320 (0 to 316, a multiple of 4). Then it prints a line of text for each
/// frame found in the period: `PLACE WORD`. PLACE is in bits; WORD is `speech`, `idle` or `other`. If an answer can't
/// be written, the frames of its period aren't listed.
///
/// At the end it prints `follow frames N left R`, N being the number of frames and R the octets after the last whole
/// period, or `line C up failed` or `line C down failed`. It doesn't allocate, and never ends with `Refused` or
/// `Memory`.
pub fn follow<T: Trunk, D: Desk>(call: u32, want: u16, trunk: &mut T, desk: &mut D) -> ToolEnd
    requires number { IsCallNumber call }
    requires high { want ≤ 316 }
    requires fours { want % 4 ≡ 0 }
    ensures runs { FollowRun (T.lines trunk.old) (T.lines trunk.new) (D.desk desk.old)
        (D.desk desk.new) call want result }
    ensures causes { FollowCauses (T.lines trunk.old) (T.lines trunk.new) (D.desk desk.old)
        (D.desk desk.new) call (status_of result) }
    ensures clean { CleanFollow (T.lines trunk.old) (T.lines trunk.new) (D.desk desk.old)
        (D.desk desk.new) call want (status_of result) }
{
    let end = follow_line(call, want, trunk, desk);
    tell_last(call, end, desk)
}
