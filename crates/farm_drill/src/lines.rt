//! The lines of a drilled call.

ghost use Rattle.std.specs.Prelude.{◌≡◌, ◌-◌, ◌≤◌, [], slice_set, IfOk, OnOk};
ghost use Rattle.call_number.specs.CallNumber.{IsCallNumber};
ghost use Rattle.trau_io.specs.Indices.{index_of_line};
ghost use Rattle.trau_io.specs.Memory.{new_line};
ghost use Rattle.farm_drill.specs.Lines.{up_line, pcm_line, AreDrilled};

use crate::draws::Generator;
use crate::periods::{pcm, uplink};
use std::alloc::{AllocError, Global};
use trau_io::{Line, MemTrunk, Side};

// Octets of the Up line, and of the Down line, in a period of 20 ms.
const STATION_OCTETS: u32 = 40;

// Octets of the Pcm line, and of the Out line, in a period.
const EXCHANGE_OCTETS: u32 = 160;

// The octets of a call's incoming lines.
#[derive(Drop)]
struct Incoming {
    up: Vec<u8>,
    pcm: Vec<u8>,
}

// Draws a call's incoming lines. Takes their memory before the first draw.
fn draw_lines(alloc: Global, seed: u32, call: u32, periods: u32) -> Result<Incoming, AllocError>
    requires call { call ≤ 256 }
    requires periods { periods ≤ 1000 }
    ensures up { IfOk result (λ lines. lines.up.items ≡ up_line seed call periods) }
    ensures pcm { IfOk result (λ lines. lines.pcm.items ≡ pcm_line seed call periods) }
{
    let mut up_octets = Vec::with_capacity(alloc, (STATION_OCTETS * periods) as usize)?;
    let mut pcm_octets = Vec::with_capacity(alloc, (EXCHANGE_OCTETS * periods) as usize)?;
    let mut generator = Generator::new(seed, call);
    for period in 0..periods {
        up_octets.extend_from_slice(&uplink(&mut generator, period))?;
        pcm_octets.extend_from_slice(&pcm(&mut generator, period))?;
    }
    Ok(Incoming {
        up: up_octets,
        pcm: pcm_octets,
    })
}

// Sets a line on which no operation is short or set to fail.
fn set_line(
    trunk: &mut MemTrunk,
    alloc: Global,
    call: u32,
    side: Side,
    contents: Vec<u8>,
    room: u32,
) -> Result<(), AllocError>
    requires { IsCallNumber call }
    ensures { OnOk result (trunk.new ≡ slice_set trunk.old (index_of_line call side) (new_line contents.items [] [] room)) }
{
    let line = Line { call, side };
    let (cuts, fails) = (Vec::new(alloc), Vec::new(alloc));
    trunk.set(alloc, line, contents, cuts, fails, room)
}

/// Sets the four lines of a call, after those of the calls before it.
pub(crate) fn set_call(
    trunk: &mut MemTrunk,
    alloc: Global,
    seed: u32,
    call: u32,
    periods: u32,
) -> Result<(), AllocError>
    requires low { 1 ≤ call }
    requires high { call ≤ 256 }
    requires periods { periods ≤ 1000 }
    ensures { OnOk result (AreDrilled seed (call - 1) periods trunk.old → AreDrilled seed call periods trunk.new) }
{
    let Incoming { up, pcm } = draw_lines(alloc, seed, call, periods)?;
    let (down, out) = (STATION_OCTETS * periods, EXCHANGE_OCTETS * periods);
    set_line(trunk, alloc, call, Side::Up, up, 1)?;
    set_line(trunk, alloc, call, Side::Pcm, pcm, 1)?;
    set_line(trunk, alloc, call, Side::Down, Vec::new(alloc), down)?;
    set_line(trunk, alloc, call, Side::Out, Vec::new(alloc), out)
}
