//! The transmit side of one call.

ghost use Rattle.std.specs.Prelude.{◌≡◌, ◌≤◌, List, [], ◌∷◌};
ghost use Rattle.trau_params.specs.Fields.{fields_of};
ghost use Rattle.tx_dtx.specs.Stretch.{Coded, coded_frame, measures_of, is_active_at, sent_frame};
ghost use Rattle.tx_dtx.specs.Sent.{described_from, sent_of};
ghost use Rattle.tx_dtx.specs.Memory.{home_memory};
ghost use Rattle.tx_dtx.specs.Step.{after_active, hangs_at, sid_step, early_step, pause_step, sent_after, with_measures, next_sent};
ghost use Rattle.tx_dtx.specs.Stands.{Stands};

use crate::sid::sid;
use std::marker::Model;
use trau_params::{Params, Trace};

// From this frame of a pause on, counted from 1, each one becomes a SID (this project's profile).
const DESCRIBED_FROM: u8 = 5;

// A pause has a hangover if this many frames, or more, have passed since the last SID was made (this project's
// profile).
const HANGOVER_AFTER: u8 = 24;

/// The state of the transmit side of one call.
#[derive(Drop)]
pub struct Tx {
    // The number of inactive frames in a row, counted up to DESCRIBED_FROM.
    pub(crate) run: u8,
    // The number of frames since the last SID was made, counted up to HANGOVER_AFTER; HANGOVER_AFTER if none was made.
    pub(crate) elapsed: u8,
    // Whether the last pause has a hangover.
    pub(crate) hangs: bool,
    // The last SID.
    pub(crate) sid: Params,
    // The measures of the last three frames, the last one first.
    pub(crate) last: Trace,
    pub(crate) second_last: Trace,
    pub(crate) third_last: Trace,
}

impl Model for Tx {
    ghost use Rattle.std.specs.Prelude.{◌≤◌, [], ◌∷◌};
    ghost use Rattle.trau_params.specs.Fields.{fields_of};
    ghost use Rattle.tx_dtx.specs.Stretch.{measures_of};
    ghost use Rattle.tx_dtx.specs.Sent.{described_from, hangover_after};
    ghost use Rattle.tx_dtx.specs.Memory.{TxMemory};

    ghost Value = { TxMemory };

    ghost view = { λ t. record {
      run = t.run;
      elapsed = t.elapsed;
      hangs = t.hangs;
      sid = fields_of t.sid;
      recent = measures_of t.last ∷ measures_of t.second_last ∷ measures_of t.third_last ∷ [];
    } };

    ghost invariant = { λ t. (t.run ≤ described_from) × (t.elapsed ≤ hangover_after) };
}

// Whether a frame is speech, which is the voice activity of this project's profile.
fn is_active(peak: i16, level: i16, on: bool) -> bool
    ensures { result ≡ is_active_at peak level on }
{
    !on || peak >= level
}

// Whether a pause has a hangover, at its run-th frame.
fn hangs_at(run: u8, elapsed: u8, hangs: bool) -> bool
    ensures { result ≡ hangs_at run elapsed hangs }
{
    if run == 1 {
        elapsed >= HANGOVER_AFTER
    } else {
        hangs
    }
}

impl Tx {
    /// The state before the first frame: no SID was made, and the next pause has a hangover.
    pub fn home() -> Tx
        ensures value { result ≡ home_memory }
        ensures history { Stands [] result }
    {
        let none = Trace {
            lar: [0; 8],
            xmax: [0; 4],
        };
        Tx {
            run: 0,
            elapsed: HANGOVER_AFTER,
            hangs: false,
            sid: Params::new([0; 8], [0; 4], [0; 4], [0; 4], [0; 4], [[0; 13]; 4]),
            last: none,
            second_last: none,
            third_last: none,
        }
    }

    // Takes an active frame.
    fn speak(&mut self)
        ensures { self.new ≡ after_active self.old }
    {
        self.run = 0;
        self.elapsed = (self.elapsed + 1).min(HANGOVER_AFTER);
    }

    // Takes an inactive frame, makes a SID from it and the three frames before it, and sends the SID.
    fn describe(&mut self, t: &Trace) -> (Params, bool)
        ensures { sid_step self.old (measures_of t.now) ≡
            (sent_frame result.0 result.1, self.new) }
    {
        self.run = DESCRIBED_FROM;
        self.elapsed = 0;
        self.sid = sid(t, &self.last, &self.second_last, &self.third_last);
        (self.sid, false)
    }

    // Takes an inactive frame, the run-th of its pause. Sends the frame itself, or the last SID.
    fn hold(&mut self, run: u8, p: &Params) -> (Params, bool)
        requires { run ≤ described_from }
        ensures { early_step self.old run (fields_of p.now) ≡
            (sent_frame result.0 result.1, self.new) }
    {
        self.run = run;
        self.elapsed = (self.elapsed + 1).min(HANGOVER_AFTER);
        self.hangs = hangs_at(run, self.elapsed, self.hangs);
        if self.hangs {
            return (*p, true);
        }
        (self.sid, false)
    }

    // Takes an inactive frame. Returns the frame to send, and SP.
    #[tactic(auto, unfolding(crate::specs::Step::pause_step))]
    fn pause(&mut self, p: &Params, t: &Trace) -> (Params, bool)
        ensures { pause_step self.old (fields_of p.now) (measures_of t.now) ≡
            (sent_frame result.0 result.1, self.new) }
    {
        let run = (self.run + 1).min(DESCRIBED_FROM);
        if run == DESCRIBED_FROM {
            return self.describe(t);
        }
        self.hold(run, p)
    }

    // Takes a frame. Returns the frame to send, and SP.
    #[tactic(auto, unfolding(crate::specs::Step::sent_after))]
    fn take(&mut self, p: &Params, t: &Trace, peak: i16, level: i16, on: bool) -> (Params, bool)
        ensures { sent_after self.old (coded_frame p.now t.now peak level on) ≡
            (sent_frame result.0 result.1, self.new) }
    {
        if is_active(peak, level, on) {
            self.speak();
            return (*p, true);
        }
        self.pause(p, t)
    }

    // Keeps a frame's measures.
    fn remember(&mut self, t: &Trace)
        ensures { self.new ≡ with_measures self.old (measures_of t.now) }
    {
        self.third_last = self.second_last;
        self.second_last = self.last;
        self.last = *t;
    }

    /// Takes the parameters of a coded frame, its log area ratios and block maxima before coding, the peak of its
    /// preprocessed samples, the level that the peak of an active frame reaches, and whether DTX is on. Returns the
    /// frame to send, and SP, which is true for speech.
    pub fn send(&mut self, p: &Params, t: &Trace, peak: i16, level: i16, on: bool) -> (Params, bool)
        ensures step { next_sent self.old (coded_frame p.now t.now peak level on) ≡
            (sent_frame result.0 result.1, self.new) }

        // After the frames of any past, this one is sent as in the whole stretch.
        ensures history { (past : List Coded) → Stands past self.old →
            Stands (coded_frame p.now t.now peak level on ∷ past) self.new ×
            (sent_frame result.0 result.1 ≡ sent_of (coded_frame p.now t.now peak level on) past) }
    {
        let sent = self.take(p, t, peak, level, on);
        self.remember(t);
        sent
    }
}
