//! The generator of a call's draws.

ghost use Rattle.std.specs.Prelude.{◌≡◌, ℕ, ◌+◌, ◌<◌, length};
ghost use Rattle.trau_bits.specs.Bits.{AreBits};
ghost use Rattle.farm_drill.specs.Draws.{draw_state, draw, draws, drawn_bits};

/// The generator of a call, after some number of draws.
#[derive(Drop)]
pub struct Generator {
    // The state, of which the next draw makes the next one.
    x: u32,
}

impl Generator {
    /// The generator before a call's first draw. The call's number is below 4,096.
    pub fn new(seed: u32, call: u32) -> Generator
        requires { call < 4096 }
        ensures { result.x ≡ draw_state seed call 0 }
    {
        Generator {
            x: seed.wrapping_mul(4096).wrapping_add(call),
        }
    }

    /// The next draw, an octet.
    pub(crate) fn draw(&mut self) -> u8
        ensures now { (seed call n : ℕ) → self.old.x ≡ draw_state seed call n → self.new.x ≡ draw_state seed call (n + 1) }
        ensures draw { (seed call n : ℕ) → self.old.x ≡ draw_state seed call n → result ≡ draw seed call n }
    {
        self.x = self.x.wrapping_mul(1_664_525).wrapping_add(1_013_904_223);
        (self.x >> 24) as u8
    }

    /// Fills the octets with the next draws.
    pub(crate) fn fill(&mut self, octets: &mut [u8])
        ensures now { (seed call n : ℕ) → self.old.x ≡ draw_state seed call n → self.new.x ≡ draw_state seed call (n + length octets.old) }
        ensures octets { (seed call n : ℕ) → self.old.x ≡ draw_state seed call n → octets.new ≡ draws seed call n (length octets.old) }
    {
        for octet in octets.iter_mut() {
            *octet = self.draw();
        }
    }

    /// The highest bits of the next 260 draws.
    pub(crate) fn bits(&mut self) -> [u8; 260]
        ensures now { (seed call n : ℕ) → self.old.x ≡ draw_state seed call n → self.new.x ≡ draw_state seed call (n + 260) }
        ensures value { (seed call n : ℕ) → self.old.x ≡ draw_state seed call n → result ≡ drawn_bits seed call n 260 }
        ensures bits { AreBits result }
    {
        let mut bits = [0; 260];
        for i in 0..260 {
            bits[i] = self.draw() / 128;
        }
        bits
    }
}
