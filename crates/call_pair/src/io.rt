//! The octets of a call in a round.

ghost use Rattle.std.specs.Prelude.{◌≡◌, ◌<◌, ◌≤◌, true, IfOk, IfErr, replicate, vec_capacity};
ghost use Rattle.trau_bits.specs.Bits.{bits_of, octets_of};
ghost use Rattle.call_number.specs.CallNumber.{IsCallNumber};
ghost use Rattle.call_pair.specs.Memory.{no_octets, io_at_rest, io_planned};
ghost use Rattle.call_pair.specs.Periods.{up_at, pcm_at, with_out, with_period, has_period};
ghost use Rattle.call_pair.specs.Phases.{one_done};

use std::alloc::{AllocError, Global};
use std::marker::Model;

/// The octets of a call in a round: those of its Up and Pcm lines, and those for its Out and Down lines. Place k
/// has the octets of the round's period k, from 40 k or 160 k on.
#[derive(Drop)]
pub struct LegIo {
    pub call: u32,
    pub up: Vec<u8>,
    pub pcm: Vec<u8>,
    pub out: Vec<u8>,
    pub down: Vec<u8>,
    /// How many periods the lines gave; before they are read, how many the round takes.
    pub given: u32,
    /// How many of them are done.
    pub done: u32,
}

impl Model for LegIo {
    ghost use Rattle.call_pair.specs.Memory.{IoMemory, IsIo};

    ghost Value = { IoMemory };

    ghost view = { λ io. record {
      call = io.call;
      up = io.up.items;
      pcm = io.pcm.items;
      out = io.out.items;
      down = io.down.items;
      given = io.given;
      done = io.done;
    } };

    ghost invariant = { λ io. IsIo (record {
      call = io.call;
      up = io.up.items;
      pcm = io.pcm.items;
      out = io.out.items;
      down = io.down.items;
      given = io.given;
      done = io.done;
    }) };
}

// Makes room for `most` octets. The contents stay.
fn make_room(octets: &mut Vec<u8>, most: usize) -> Result<(), AllocError>
    ensures same { octets.new.items ≡ octets.old.items }
    ensures room { IfOk result (λ u. most ≤ vec_capacity octets.new) }
{
    octets.reserve(most.saturating_sub(octets.len()))?;
    Ok(())
}

// Replaces the contents by `number` zeros, for which there is room.
fn put_zeros(octets: &mut Vec<u8>, number: usize)
    requires { number ≤ vec_capacity octets.old }
    ensures { octets.new.items ≡ replicate number 0 }
{
    octets.clear();
    // There is room, so this takes no memory and can't fail.
    let _ = octets.resize(number, 0);
}

impl LegIo {
    /// No period of the call with this number, 1 to 4,096. It takes no memory.
    pub(crate) fn none(alloc: Global, call: u32) -> LegIo
        requires { IsCallNumber call }
        ensures { result ≡ no_octets call }
    {
        LegIo {
            call,
            up: Vec::new(alloc),
            pcm: Vec::new(alloc),
            out: Vec::new(alloc),
            down: Vec::new(alloc),
            given: 0,
            done: 0,
        }
    }

    /// No period, none done. The buffers stay.
    pub(crate) fn rest(&mut self)
        ensures { self.new ≡ io_at_rest self.old }
    {
        self.given = 0;
        self.done = 0;
    }

    /// Makes room for `periods` periods, all of them given and none done, with octets of 0. On an error no period is
    /// given.
    pub(crate) fn plan(&mut self, periods: u32) -> Result<(), AllocError>
        ensures planned { IfOk result (λ u. self.new ≡ io_planned self.old.call periods) }
        ensures refused { IfErr result (λ e. (self.new.given ≡ 0) × (self.new.done ≡ 0)) }
    {
        self.rest();
        let (frames, samples) = (40 * periods as usize, 160 * periods as usize);
        make_room(&mut self.up, frames)?;
        make_room(&mut self.pcm, samples)?;
        make_room(&mut self.out, samples)?;
        make_room(&mut self.down, frames)?;
        put_zeros(&mut self.up, frames);
        put_zeros(&mut self.pcm, samples);
        put_zeros(&mut self.out, samples);
        put_zeros(&mut self.down, frames);
        self.given = periods;
        Ok(())
    }

    /// Lowers the number of given periods, none of which is done.
    pub(crate) fn give(&mut self, given: u32)
        requires fewer { given ≤ self.old.given }
        requires none { self.old.done ≡ 0 }
        ensures { self.new ≡ record self.old { given = given } }
    {
        self.given = given;
    }

    /// Whether a place remains.
    pub(crate) fn has_period(&self) -> bool
        ensures { result ≡ has_period self.now }
    {
        self.done < self.given
    }

    /// The 40 octets of the next place of the Up line.
    pub(crate) fn up_next(&self) -> &[u8; 40]
        requires { has_period self.now ≡ true }
        ensures { result.now ≡ up_at self.now.done self.now }
    {
        self.up[40 * self.done as usize..].first_chunk().unwrap()
    }

    /// The 160 octets of the next place of the Pcm line.
    pub(crate) fn pcm_next(&self) -> &[u8; 160]
        requires { has_period self.now ≡ true }
        ensures { result.now ≡ pcm_at self.now.done self.now }
    {
        self.pcm[160 * self.done as usize..].first_chunk().unwrap()
    }

    /// Writes the 160 octets of the next place of the Out line.
    pub(crate) fn put_out(&mut self, octets: &[u8; 160])
        requires { has_period self.old ≡ true }
        ensures { self.new ≡ with_out self.old octets.now }
    {
        let start = 160 * self.done as usize;
        self.out[start..start + 160].copy_from_slice(octets);
    }

    /// Writes the 40 octets of the next place of the Down line, and counts the place as done.
    pub(crate) fn put_down(&mut self, octets: &[u8; 40])
        requires { has_period self.old ≡ true }
        ensures io { self.new ≡ with_period self.old octets.now }
        ensures packed { octets_of (bits_of octets.now) ≡ octets.now }
    {
        let start = 40 * self.done as usize;
        self.down[start..start + 40].copy_from_slice(octets);
        self.done += 1;
    }

    /// Counts a place of the uplink as done.
    pub(crate) fn count_place(&mut self)
        requires { has_period self.old ≡ true }
        ensures { self.new ≡ one_done self.old }
    {
        self.done += 1;
    }

    /// Sets the number of finished places to 0.
    pub(crate) fn start_again(&mut self)
        ensures io { self.new ≡ record self.old { done = 0 } }
        ensures within { self.old.done ≤ self.old.given }
    {
        self.done = 0;
    }
}
