//! A line's jitter buffer, read once a tick.

ghost use Rattle.std.specs.Prelude.{◌≡◌, ◌≢◌, ◌≤◌, ◌<◌, ◌+◌, ◌-◌, ◌⊎◌, ◌∷◌, [], ℕ, Bool, List, length, slice_index, unwrap_or, true, false, Some, None, if◌then◌else◌};
ghost use Rattle.rtp_buffer.specs.declared.octet.Octet.TheVariants.{Missing};
ghost use Rattle.rtp_buffer.specs.Octets.{with_octet, came, after_taking, after_leaving_out, heard};
ghost use Rattle.rtp_buffer.specs.Store.{place, content, known, slot_of, is_before, IsNear};
ghost use Rattle.rtp_buffer.specs.History.{Deed, Put, Take, LeaveOut, LeaveOutBefore, Stands, first_came, is_waiting};
ghost use Rattle.rtp_buffer.specs.Watch.{on, back};
ghost use Rattle.rtp_buffer.specs.Pace.{wait_of, is_late, pace_home, due, slipped, wished, is_owed, given_up};
ghost use Rattle.rtp_buffer.specs.Buffer.{AllKnown, IsLacking, Waits, NothingWaits, SaysWaits, SaysKnown, period_at, newest_wait, newer_of, seen, late_behind, judged, outcome_of};

use crate::pace::{LATE, Owed, Pace, Wish};
use crate::store::Store;

/// What became of octets.
#[derive(Clone, Copy)]
pub enum Outcome {
    /// They are played in time.
    Taken,
    /// They were to be played before.
    Late,
    /// They came before.
    Doubled,
}

/// A line's jitter buffer.
#[derive(Clone, Copy)]
#[repr(C)]
pub struct Buffer<const N: usize> {
    /// Which period is played when.
    pub pace: Pace,
    /// The newest period of which octets came in time; before any came, the one before the first that is played.
    pub newest: u32,
    /// What came of each period.
    pub store: Store<N>,
}

impl<const N: usize> Buffer<N> {
    /// A stream begins: its period 0 has come at this tick.
    pub fn begin(&mut self, depth: u32, tick: u32)
        ensures pace { self.new.pace ≡ pace_home depth tick }
        ensures newest { self.new.newest ≡ back (period_at self.new.pace tick) 1 }
        ensures store { (period k : ℕ) → place self.new.store.slots period k ≡ Missing }
        ensures stands { Stands [] self.new.store.slots }
    {
        self.pace = Pace::home(depth, tick);
        self.newest = self.period_at(tick).wrapping_sub(1);
        self.store.clear();
    }

    /// The period that is played at a tick.
    pub fn period_at(&self, tick: u32) -> u32
        ensures { result ≡ period_at self.now.pace tick }
    {
        tick.wrapping_add(self.pace.shift)
    }

    // The ticks that the newest period still waits; 0 if its time is past.
    fn newest_wait(&self, tick: u32) -> u32
        ensures { result ≡ newest_wait self.now.pace self.now.newest tick }
    {
        let left = self.pace.wait(self.newest, tick);
        if left >= LATE { 0 } else { left }
    }

    // A late packet, which is watched.
    fn straggle(&mut self, wait: u32, tick: u32)
        ensures store { self.new.store ≡ self.old.store }
        ensures newest { self.new.newest ≡ self.old.newest }
        ensures pace { self.new.pace ≡ late_behind self.old.pace wait (newest_wait self.old.pace self.old.newest tick) tick }
    {
        let newest = self.newest_wait(tick);
        self.pace.watch.see(wait, tick);
        let late = 0u32.wrapping_sub(wait);
        self.pace.straggle(late, newest.wrapping_add(late), tick);
    }

    // Octets of a period came in time: it may be the newest one.
    fn note_newest(&mut self, period: u32)
        ensures newest { self.new.newest ≡ newer_of self.old.newest period }
        ensures pace { self.new.pace ≡ self.old.pace }
        ensures store { self.new.store ≡ self.old.store }
    {
        if period.wrapping_sub(self.newest) < LATE {
            self.newest = period;
        }
    }

    /// Takes octets of a period, where none came. `is_watched`: unless they came before, how long they wait says
    /// something about the path.
    pub fn put(
        &mut self,
        period: u32,
        part: usize,
        octets: &[u8],
        tick: u32,
        is_watched: bool,
    ) -> Outcome
        requires { part + length octets.now ≤ N }
        ensures outcome { result ≡ outcome_of self.old period part (length octets.now) tick }
        ensures shift { self.new.pace.shift ≡ self.old.pace.shift }
        ensures doubled { result ≡ Outcome.Doubled → AllKnown self.old.store.slots period part (length octets.now) × (self.new ≡ self.old) }
        ensures late { result ≡ Outcome.Late → (is_late (wait_of self.old.pace period tick) ≡ true) × IsLacking self.old.store.slots period part (length octets.now) }
        ensures stays { result ≡ Outcome.Late → (self.new.store ≡ self.old.store) × (self.new.newest ≡ self.old.newest) }
        ensures taken { result ≡ Outcome.Taken → (is_late (wait_of self.old.pace period tick) ≡ false) × IsLacking self.old.store.slots period part (length octets.now) }
        ensures stands { (deeds : List Deed) → Stands deeds self.old.store.slots → result ≡ Outcome.Taken → Stands (Put period part octets.now ∷ deeds) self.new.store.slots }
        ensures seen { result ≡ Outcome.Taken → self.new.pace ≡ seen self.old.pace (wait_of self.old.pace period tick) tick is_watched }
        ensures unwatched { result ≡ Outcome.Late → is_watched ≡ false → self.new.pace ≡ self.old.pace }
        ensures straggles { result ≡ Outcome.Late → is_watched ≡ true →
            self.new.pace ≡ late_behind self.old.pace (wait_of self.old.pace period tick) (newest_wait self.old.pace self.old.newest tick) tick }
        ensures newest { result ≡ Outcome.Taken → self.new.newest ≡ newer_of self.old.newest period }
        ensures own { result ≡ Outcome.Taken → (k : ℕ) → place self.new.store.slots period k ≡ with_octet (place self.old.store.slots period k) (came part octets.now (length octets.now) k) }
        ensures same_slot { result ≡ Outcome.Taken → (other k : ℕ) → slot_of other ≡ slot_of period → other ≢ period → place self.new.store.slots other k ≡ Missing }
        ensures other_slots { (other k : ℕ) → slot_of other ≢ slot_of period → place self.new.store.slots other k ≡ place self.old.store.slots other k }
        ensures others { (other k : ℕ) → IsNear period other → place self.new.store.slots other k ≡ place self.old.store.slots other k }
        ensures first { (k octet : ℕ) → content self.old.store.slots period k ≡ Some octet → content self.new.store.slots period k ≡ Some octet }
    {
        if self.store.have_come(period, part, octets.len()) {
            return Outcome::Doubled;
        }
        let wait = self.pace.wait(period, tick);
        if wait >= LATE {
            if is_watched {
                self.straggle(wait, tick);
            }
            return Outcome::Late;
        }
        if is_watched {
            self.pace.watch.see(wait, tick);
        }
        self.note_newest(period);
        self.store.put(period, part, octets);
        Outcome::Taken
    }

    /// Before a period is played: waits are judged, if enough packets came, and what is past is left out; or it is
    /// decided when the next slip is made.
    pub fn prepare(&mut self, tick: u32) -> Wish
        ensures shift { self.new.pace.shift ≡ self.old.pace.shift }
        ensures stands { (deeds : List Deed) → Stands deeds self.old.store.slots →
            Stands deeds self.new.store.slots ⊎ Stands (LeaveOutBefore (period_at self.old.pace tick) ∷ deeds) self.new.store.slots }
        ensures idle { self.old.pace.owed ≡ Owed.Nothing → (self.new.pace ≡ judged self.old.pace tick) × (result ≡ Wish.Not) }
        ensures owed { is_owed self.old.pace.owed ≡ true → let period = period_at self.old.pace tick in
            (waits whole : Bool) × SaysWaits self.old.store.slots period waits × SaysKnown self.old.store.slots period 0 N whole ×
            (self.new.pace ≡ (wished self.old.pace waits whole tick).0) × (result ≡ (wished self.old.pace waits whole tick).1) × (self.new.store ≡ self.old.store) }
        ensures kept { self.old.pace.owed ≡ Owed.Nothing → due self.old.pace tick ≡ false → self.new.store ≡ self.old.store }
        ensures left_out { self.old.pace.owed ≡ Owed.Nothing → due self.old.pace tick ≡ true → (period k : ℕ) → place self.new.store.slots period k ≡
            (if is_before period (period_at self.old.pace tick) then after_leaving_out (place self.old.store.slots period k) else place self.old.store.slots period k) }
        ensures depth { self.new.pace.depth ≡ self.old.pace.depth }
        ensures newest { self.new.newest ≡ self.old.newest }
        ensures ahead { (period k : ℕ) → is_before period (period_at self.old.pace tick) ≡ false → place self.new.store.slots period k ≡ place self.old.store.slots period k }
    {
        let period = self.period_at(tick);
        match self.pace.owed {
            Owed::Nothing => {
                if self.pace.is_due(tick) {
                    self.pace.review(tick);
                    self.store.leave_out_before(period);
                }
                Wish::Not
            }
            _ => {
                let waits = self.store.waits(period);
                let is_whole = self.store.have_come(period, 0, N);
                self.pace.wish(waits, is_whole, tick)
            }
        }
    }

    /// What would be played at a tick.
    pub fn look(&self, tick: u32, filler: u8) -> [u8; N]
        ensures { (k : ℕ) → k < N → slice_index result k ≡ heard (place self.now.store.slots (period_at self.now.pace tick) k) filler }
    {
        let period = self.period_at(tick);
        self.store.look(period, filler)
    }

    /// Makes a slip that is owed: leaves out this tick's period, or lets it wait a tick longer. The one before it then
    /// has another turn; what was played of that one isn't played again.
    pub fn slip(&mut self, tick: u32)
        ensures pace { self.new.pace ≡ slipped self.old.pace tick }
        ensures newest { self.new.newest ≡ self.old.newest }
        ensures stands { (deeds : List Deed) → Stands deeds self.old.store.slots →
            Stands deeds self.new.store.slots ⊎ Stands (LeaveOut (period_at self.old.pace tick) ∷ deeds) self.new.store.slots }
        ensures idle { self.old.pace.owed ≡ Owed.Nothing → self.new ≡ self.old }
        ensures on { (count : ℕ) → self.old.pace.owed ≡ Owed.On count → (k : ℕ) →
            place self.new.store.slots (period_at self.old.pace tick) k ≡ after_leaving_out (place self.old.store.slots (period_at self.old.pace tick) k) }
        ensures back { (count : ℕ) → self.old.pace.owed ≡ Owed.Back count → self.new.store ≡ self.old.store }
        ensures others { (other k : ℕ) → other ≢ period_at self.old.pace tick → place self.new.store.slots other k ≡ place self.old.store.slots other k }
    {
        if let Owed::On(_) = self.pace.owed {
            let period = self.period_at(tick);
            self.store.leave_out(period);
        }
        self.pace.slip(tick);
    }

    /// What is played at a tick.
    pub fn take(&mut self, tick: u32, filler: u8) -> [u8; N]
        ensures pace { self.new.pace ≡ self.old.pace }
        ensures newest { self.new.newest ≡ self.old.newest }
        ensures heard { (k : ℕ) → k < N → slice_index result k ≡ heard (place self.old.store.slots (period_at self.old.pace tick) k) filler }
        ensures own { (k : ℕ) → place self.new.store.slots (period_at self.old.pace tick) k ≡ after_taking (place self.old.store.slots (period_at self.old.pace tick) k) }
        ensures others { (other k : ℕ) → other ≢ period_at self.old.pace tick → place self.new.store.slots other k ≡ place self.old.store.slots other k }
        ensures stands { (deeds : List Deed) → Stands deeds self.old.store.slots → Stands (Take (period_at self.old.pace tick) ∷ deeds) self.new.store.slots }

        // What is played at a place is the first octet that came for it in time, or the filler.
        ensures in_time { (deeds : List Deed) → Stands deeds self.old.store.slots → is_waiting deeds (period_at self.old.pace tick) ≡ true →
            (k : ℕ) → k < N → slice_index result k ≡ unwrap_or (first_came deeds (period_at self.old.pace tick) k) filler }
    {
        let period = self.period_at(tick);
        self.store.take(period, filler)
    }

    /// The clock has given up so many periods: what would have been played in them is left out.
    pub fn give_up(&mut self, periods: u32, tick: u32)
        ensures pace { self.new.pace ≡ given_up self.old.pace periods }
        ensures newest { self.new.newest ≡ self.old.newest }
        ensures left_out { (period k : ℕ) → place self.new.store.slots period k ≡
            (if is_before period (period_at self.new.pace tick) then after_leaving_out (place self.old.store.slots period k) else place self.old.store.slots period k) }
        ensures ahead { (period k : ℕ) → is_before period (period_at self.new.pace tick) ≡ false → place self.new.store.slots period k ≡ place self.old.store.slots period k }
        ensures stands { (deeds : List Deed) → Stands deeds self.old.store.slots → Stands (LeaveOutBefore (period_at self.new.pace tick) ∷ deeds) self.new.store.slots }
    {
        self.pace.give_up(periods);
        let period = self.period_at(tick);
        self.store.leave_out_before(period);
    }

    /// Whether the time of the newest period that came is past: nothing is left to be played.
    pub fn is_played_out(&self, tick: u32) -> bool
        ensures { result ≡ is_late (wait_of self.now.pace self.now.newest tick) }
    {
        self.pace.wait(self.newest, tick) >= LATE
    }
}
