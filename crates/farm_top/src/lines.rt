//! The commands on lines but `follow`.
ghost use Rattle.std.specs.Prelude.{◌≤◌};
ghost use Rattle.call_number.specs.CallNumber.{IsCallNumber};
ghost use Rattle.block_lines.specs.Command.{Causes, CommandRuns, Leaves, status_of};
ghost use Rattle.frame_listing.specs.Machine.{frames_machine};
ghost use Rattle.farm_tools.specs.Machines.{machine_of};
ghost use Rattle.trau_submux.specs.Splits.{split_machine};
ghost use Rattle.farm_top.specs.Lines.{CommandEnds, MergeEnds};

use crate::top::status_of_end;
use farm_tools::{Tool, ToolEnd, decode, encode, frames, relay};
use trau_io::{Desk, Trunk};
use trau_submux::{merge, split};

// Runs a tool.
fn run_tool<T: Trunk, D: Desk>(tool: Tool, call: u32, trunk: &mut T, desk: &mut D) -> ToolEnd
    requires { IsCallNumber call }
    ensures runs { CommandRuns (machine_of tool) (T.lines trunk.old) (T.lines trunk.new) (D.desk desk.old) (D.desk desk.new) call result }
    ensures causes { Causes (machine_of tool) (T.lines trunk.old) (T.lines trunk.new) (D.desk desk.old) (D.desk desk.new) call (status_of result) }
    ensures clean { Leaves (machine_of tool) (T.lines trunk.old) (T.lines trunk.new) (D.desk desk.old) (D.desk desk.new) call (status_of result) }
{
    match tool {
        Tool::Relay => relay(call, trunk, desk),
        Tool::Decode => decode(call, trunk, desk),
        Tool::Encode => encode(call, trunk, desk),
    }
}

/// Runs a tool, and returns the status.
pub(crate) fn carry_tool<T: Trunk, D: Desk>(
    tool: Tool,
    call: u32,
    trunk: &mut T,
    desk: &mut D,
) -> u8
    requires { IsCallNumber call }
    ensures { CommandEnds (machine_of tool) (T.lines trunk.old) (T.lines trunk.new) (D.desk desk.old) (D.desk desk.new) call result }
{
    let end = run_tool(tool, call, trunk, desk);
    status_of_end(end)
}

/// Lists the frames of a call's uplink, and returns the status.
pub(crate) fn carry_frames<T: Trunk, D: Desk>(call: u32, trunk: &mut T, desk: &mut D) -> u8
    requires { IsCallNumber call }
    ensures { CommandEnds frames_machine (T.lines trunk.old) (T.lines trunk.new) (D.desk desk.old) (D.desk desk.new) call result }
{
    let end = frames(call, trunk, desk);
    status_of_end(end)
}

/// Cuts the slot on a call's Pcm line into its channels, and returns the status.
pub(crate) fn carry_split<T: Trunk, D: Desk>(call: u32, trunk: &mut T, desk: &mut D) -> u8
    requires low { 1 ≤ call }
    requires high { call ≤ 4093 }
    ensures { CommandEnds split_machine (T.lines trunk.old) (T.lines trunk.new) (D.desk desk.old) (D.desk desk.new) call result }
{
    let end = split(call, trunk, desk);
    status_of_end(end)
}

/// Joins the channels on the Up lines of a call and the next three calls into a slot, and returns the status.
pub(crate) fn carry_merge<T: Trunk, D: Desk>(call: u32, trunk: &mut T, desk: &mut D) -> u8
    requires low { 1 ≤ call }
    requires high { call ≤ 4093 }
    ensures { MergeEnds (T.lines trunk.old) (T.lines trunk.new) (D.desk desk.old) (D.desk desk.new) call result }
{
    let end = merge(call, trunk, desk);
    status_of_end(end)
}
