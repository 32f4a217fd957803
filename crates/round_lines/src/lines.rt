//! Reading and writing a call's lines in a round. The caller owns the buffers.
ghost use Rattle.std.specs.Prelude.{◌≡◌, ◌*◌, length, List, ℕ};
ghost use Rattle.trau_io.specs.declared.line.Side.TheVariants.{Up, Pcm, Down, Out};
ghost use Rattle.trau_io.specs.Lines.{OthersStay};
ghost use Rattle.round_lines.specs.Transfer.{Takes, LineGives};
ghost use Rattle.round_lines.specs.Memory.{whole_in};
ghost use Rattle.round_lines.specs.Portions.{Fits, Fills, Drains, portion_from, down_given, out_given};
ghost use Rattle.round_lines.specs.Rounds.{KeepsBut, IsIncoming, IsOutgoing};

use crate::call_lines::CallLines;
use crate::transfer::{give_block, take_block};
use trau_io::{Side, Trunk};

impl CallLines {
    // Reads the round's octets of the Up line, and notes how the reading ended.
    fn take_up<T: Trunk>(&mut self, trunk: &mut T, up: &mut [u8])
        requires { length up.old ≡ 40 * self.old.periods }
        ensures this { Takes (T.lines trunk.old self.old.call Up)
            (T.lines trunk.new self.old.call Up) self.new.up up.new }
        ensures others { OthersStay (T.lines trunk.old) (T.lines trunk.new) self.old.call Up }
        ensures kept { self.new ≡ record self.old { up = self.new.up } }
    {
        let taken = take_block(trunk, self.line(Side::Up), up);
        self.set_up(taken);
    }

    // The same of the Pcm line.
    fn take_pcm<T: Trunk>(&mut self, trunk: &mut T, pcm: &mut [u8])
        requires { length pcm.old ≡ 160 * self.old.periods }
        ensures this { Takes (T.lines trunk.old self.old.call Pcm)
            (T.lines trunk.new self.old.call Pcm) self.new.pcm pcm.new }
        ensures others { OthersStay (T.lines trunk.old) (T.lines trunk.new) self.old.call Pcm }
        ensures kept { self.new ≡ record self.old { pcm = self.new.pcm } }
    {
        let taken = take_block(trunk, self.line(Side::Pcm), pcm);
        self.set_pcm(taken);
    }

    /// Reads Up, then Pcm, each until the round's octets are read, the line ends or it fails.
    pub fn fill<T: Trunk>(&mut self, trunk: &mut T, up: &mut [u8], pcm: &mut [u8])
        requires up { length up.old ≡ 40 * self.old.periods }
        requires pcm { length pcm.old ≡ 160 * self.old.periods }
        ensures fills { (down out : List ℕ) → Fills
            (T.lines trunk.old self.old.call) (T.lines trunk.new self.old.call)
            (portion_from self.old up.old pcm.old down out)
            (portion_from self.new up.new pcm.new down out) }
        ensures others { KeepsBut IsIncoming (T.lines trunk.old) (T.lines trunk.new) self.old.call }
    {
        self.take_up(trunk, up);
        self.take_pcm(trunk, pcm);
    }

    // Writes the octets to the Down line, unless it failed before, and notes whether it fails now.
    fn give_down<T: Trunk>(&mut self, trunk: &mut T, down: &[u8])
        ensures this { LineGives (T.lines trunk.old self.old.call Down)
            (T.lines trunk.new self.old.call Down) self.old.down self.new.down down.now }
        ensures others { OthersStay (T.lines trunk.old) (T.lines trunk.new) self.old.call Down }
        ensures kept { self.new ≡ record self.old { down = self.new.down } }
    {
        let outlet = give_block(trunk, self.line(Side::Down), self.down(), down);
        self.set_down(outlet);
    }

    // The same of the Out line.
    fn give_out<T: Trunk>(&mut self, trunk: &mut T, out: &[u8])
        ensures this { LineGives (T.lines trunk.old self.old.call Out)
            (T.lines trunk.new self.old.call Out) self.old.out self.new.out out.now }
        ensures others { OthersStay (T.lines trunk.old) (T.lines trunk.new) self.old.call Out }
        ensures kept { self.new ≡ record self.old { out = self.new.out } }
    {
        let outlet = give_block(trunk, self.line(Side::Out), self.out(), out);
        self.set_out(outlet);
    }

    /// Writes the octets of the whole periods that were read: Down, then Out. A line that failed before is skipped.
    pub fn drain<T: Trunk>(&mut self, trunk: &mut T, down: &[u8], out: &[u8])
        requires down { length down.now ≡ 40 * self.old.periods }
        requires out { length out.now ≡ 160 * self.old.periods }
        ensures drains { (up pcm : List ℕ) → Drains
            (T.lines trunk.old self.old.call) (T.lines trunk.new self.old.call)
            (portion_from self.old up pcm down.now out.now)
            (portion_from self.new up pcm down.now out.now) }
        ensures others { KeepsBut IsOutgoing (T.lines trunk.old) (T.lines trunk.new) self.old.call }
    {
        let whole = self.whole() as usize;
        self.give_down(trunk, &down[..40 * whole]);
        self.give_out(trunk, &out[..160 * whole]);
    }
}
