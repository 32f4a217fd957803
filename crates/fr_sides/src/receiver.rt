//! The receive side of a call: from what a period brings to its samples, or in a bridge to the frame that is handed
//! over.

ghost use Rattle.std.specs.Prelude.{◌≡◌, ◌≤◌, not, ℕ, List, [], ◌∷◌};
ghost use Rattle.rx_handler.specs.Origin.{is_quiet};
ghost use Rattle.rx_handler.specs.State.{heard_fields, effective_fields};
ghost use Rattle.rx_handler.specs.Step.{received};
ghost use Rattle.fr_sides.specs.Memory.{receiver_memory, home_receiver};
ghost use Rattle.fr_sides.specs.Receiving.{ReceiverPeriod, decoded_period, handed_period, played, turned, turned_in_bridge, effective_now};
ghost use Rattle.fr_sides.specs.Receiving.{samples_now, ReceiverStands};

use fr_decoder::Decoder;
use rx_handler::{Effective, FlatRx, Reception, Rx};

/// The state of a call's receive side.
#[derive(Drop)]
#[repr(C)]
pub struct Receiver {
    /// What is kept of what was heard.
    pub heard: FlatRx,
    /// The decoder.
    pub decoder: Decoder,
}

// The 160 samples of a period: its effective frame, decoded; or if it is quiet, zeros, and the decoder is reset.
fn play(decoder: &mut Decoder, e: &Effective, x: &mut [i16; 160])
    ensures { played decoder.old (effective_fields e.now) ≡ (x.new, decoder.new) }
{
    match e {
        Effective::Quiet => {
            *decoder = Decoder::home();
            *x = [0; 160];
        }
        Effective::Speech(p) | Effective::Made(p) => decoder.decode(p, x),
    }
}

impl Receiver {
    /// The receive side before its first period. Its random source starts at `seed`; that of a call starts at the
    /// call's number.
    pub fn home(seed: u16) -> Receiver
        ensures value { receiver_memory result ≡ home_receiver seed }
        ensures history { ReceiverStands seed [] (receiver_memory result) }
        ensures tag { result.heard.tag ≤ 2 }
    {
        Receiver {
            heard: Rx::from_seed(seed).flat(),
            decoder: Decoder::home(),
        }
    }

    // Processes what a period brings, and returns its effective frame. The decoder stays.
    fn hear(&mut self, y: &Reception) -> Effective
        ensures heard { received (receiver_memory self.old).rx (heard_fields y.now) ≡ (effective_fields result, (receiver_memory self.new).rx) }
        ensures decoder { self.new.decoder ≡ self.old.decoder }
        ensures tag { self.new.heard.tag ≤ 2 }
    {
        let mut rx = Rx::of_flat(&self.heard);
        let e = rx.receive(y);
        self.heard = rx.flat();
        e
    }

    /// Processes a period, and writes its 160 samples, 13 bits left-justified in 16. Returns false if the call is
    /// quiet, which has zeros.
    pub fn receive(&mut self, y: &Reception, x: &mut [i16; 160]) -> bool
        ensures step { turned (receiver_memory self.old) (heard_fields y.now) ≡ (x.new, receiver_memory self.new) }
        ensures answer { result ≡ not (is_quiet (received (receiver_memory self.old).rx (heard_fields y.now)).0) }

        // If a past leads to the state before, the past with this period leads to the state after, and the samples and
        // the answer are those of this period in the whole past.
        ensures history { (seed : ℕ) (past : List ReceiverPeriod) → ReceiverStands seed past (receiver_memory self.old) →
            ReceiverStands seed (decoded_period (heard_fields y.now) ∷ past) (receiver_memory self.new)
            × (x.new ≡ samples_now seed (decoded_period (heard_fields y.now) ∷ past))
            × (result ≡ not (is_quiet (effective_now seed (decoded_period (heard_fields y.now) ∷ past)))) }
        ensures tag { self.new.heard.tag ≤ 2 }
    {
        let e = self.hear(y);
        play(&mut self.decoder, &e, x);
        !e.is_quiet()
    }

    /// Processes a period in a bridge, and returns its effective frame, which is handed over. The decoder is reset.
    pub fn hand(&mut self, y: &Reception) -> Effective
        ensures step { turned_in_bridge (receiver_memory self.old) (heard_fields y.now) ≡ (effective_fields result, receiver_memory self.new) }

        // The same after any past.
        ensures history { (seed : ℕ) (past : List ReceiverPeriod) → ReceiverStands seed past (receiver_memory self.old) →
            ReceiverStands seed (handed_period (heard_fields y.now) ∷ past) (receiver_memory self.new)
            × (effective_fields result ≡ effective_now seed (handed_period (heard_fields y.now) ∷ past)) }
        ensures tag { self.new.heard.tag ≤ 2 }
    {
        self.decoder = Decoder::home();
        self.hear(y)
    }
}
