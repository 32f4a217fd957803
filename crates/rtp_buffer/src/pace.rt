//! Which period is played when: adaptive playout in whole periods (this project's profile).
//!
//! Periods and ticks, of 20 ms, are numbers of 32 bits; after the greatest comes 0. So no sum overflows, however long a
//! call lasts.

ghost use Rattle.std.specs.Prelude.{◌≡◌, ◌<◌, ◌≤◌, ◌+◌, ℕ};
ghost use Rattle.rtp_buffer.specs.Pace.{wait_of, is_late, median, fewer, pace_home, followed, straggled, due, owed_by, reviewed, wished, slipped, given_up};

use crate::watch::{Burst, LONG_WAIT, MOST_TOLD, Watch};

/// A period whose wait is this or more is late: the nearer way round, its time is past.
pub(crate) const LATE: u32 = 0x8000_0000;

// Ticks that what is owed waits for a pause or soft speech.
const PATIENCE: u32 = 250;

// Ticks between two slips in speech.
const REST: u32 = 10;

// Late packets within so many ticks are one burst.
const BURST: u32 = 5;

// Three late bursts within so many ticks: the path reorders.
const REORDERING: u32 = 100;

/// Slips that are owed: the playing is to move, by one period a slip.
#[derive(Clone, Copy)]
pub enum Owed {
    /// None.
    Nothing,
    /// So many periods are to be left out.
    On(u32),
    /// So many are to be put in.
    Back(u32),
}

/// When a slip that is owed is made.
#[derive(Clone, Copy)]
pub enum Wish {
    /// Not at this tick.
    Not,
    /// If the period is one in which it is hardly heard.
    IfSoft,
    /// At once.
    Now,
}

/// The playout delay of one stream, and how it adapts: a period is played when its number, less `shift`, is the tick.
#[derive(Clone, Copy)]
#[repr(C)]
pub struct Pace {
    /// The ticks that a stream's first packet waits.
    pub depth: u32,
    /// The period that is played at a tick, less the tick.
    pub shift: u32,
    /// Whether the newest packet was late.
    pub was_late: bool,
    /// Slips that wait for a pause.
    pub owed: Owed,
    /// The ticks that they still wait.
    pub patience: u32,
    /// When one was made.
    pub slipped_at: u32,
    /// When a packet came late behind newer ones.
    pub late_at: u32,
    /// What was seen of the path.
    pub watch: Watch,
}

// The middle one.
fn median(a: u32, b: u32, c: u32) -> u32
    ensures { result ≡ median a b c }
{
    a.min(b).max(a.max(b).min(c))
}

impl Owed {
    // After one of them.
    fn fewer(self) -> Owed
        ensures { result ≡ fewer self }
    {
        match self {
            Owed::On(count) if count > 1 => Owed::On(count - 1),
            Owed::Back(count) if count > 1 => Owed::Back(count - 1),
            _ => Owed::Nothing,
        }
    }
}

impl Pace {
    /// A stream begins: its period 0 has come at this tick.
    pub fn home(depth: u32, tick: u32) -> Pace
        ensures { result ≡ pace_home depth tick }
    {
        Pace {
            depth,
            shift: 0u32.wrapping_sub(tick).wrapping_sub(depth),
            was_late: false,
            owed: Owed::Nothing,
            patience: 0,
            slipped_at: tick.wrapping_sub(REST),
            late_at: tick,
            watch: Watch::home(tick),
        }
    }

    /// The ticks until a period is played; from `LATE` on it is late, by 2 to the 32nd less this.
    pub fn wait(&self, period: u32, tick: u32) -> u32
        ensures { result ≡ wait_of self.now period tick }
    {
        period.wrapping_sub(self.shift).wrapping_sub(tick)
    }

    /// A packet that is newer than all before came, and waits so long. If it is the second late one in a row, the
    /// playing moves, so that it waits `depth` ticks, and waits are watched once as many ticks have passed.
    pub fn follow(&mut self, wait: u32, tick: u32)
        ensures { self.new ≡ followed self.old wait tick }
    {
        let is_late = wait >= LATE;
        if is_late && self.was_late {
            let moved = self.depth.wrapping_sub(wait);
            self.shift = self.shift.wrapping_sub(moved);
            self.owed = Owed::Nothing;
            self.was_late = false;
            self.watch = Watch::home(tick.wrapping_add(moved));
        } else {
            self.was_late = is_late;
        }
    }

    /// A packet came `late` ticks late, and is `behind` periods behind the newest one that waits. If this comes again
    /// and again, slips back are owed, so that such packets wait too.
    pub fn straggle(&mut self, late: u32, behind: u32, tick: u32)
        ensures { self.new ≡ straggled self.old late behind tick }
    {
        self.late_at = tick;
        let before = self.watch.before;
        let last = self.watch.last;
        let is_same = last.is_within(tick, BURST - 1);
        let is_far = behind > LONG_WAIT && behind < LATE;
        if is_same || is_far {
            return;
        }
        if before.is_within(tick, REORDERING) && last.is_within(tick, REORDERING) {
            self.owed = Owed::Back(median(before.late, last.late, late));
            self.patience = PATIENCE;
        }
        self.watch.before = last;
        self.watch.last = Burst { tick, late };
    }

    /// Whether enough was seen of the path.
    pub fn is_due(&self, tick: u32) -> bool
        ensures { result ≡ due self.now tick }
    {
        self.watch.is_due(tick)
    }

    /// Decides on slips by the waits of all packets but a hundredth part of them: they wait longer than the depth, or
    /// come just in time.
    pub fn review(&mut self, tick: u32)
        ensures { self.new ≡ reviewed self.old tick }
    {
        let least = self.watch.least();
        let waits = least.saturating_sub(MOST_TOLD);
        if waits > self.depth {
            self.owed = Owed::On(waits - self.depth);
        } else if least < MOST_TOLD + self.depth.min(1) && !self.watch.is_long() {
            self.owed = Owed::Back(1);
        }
        self.patience = PATIENCE;
        self.watch = Watch::home(tick);
    }

    /// When the next slip is made. `waits`: whether something of the period waits, `is_whole`: whether all of it came.
    pub fn wish(&mut self, waits: bool, is_whole: bool, tick: u32) -> Wish
        ensures pace { self.new ≡ (wished self.old waits is_whole tick).0 }
        ensures wish { result ≡ (wished self.old waits is_whole tick).1 }
    {
        let (is_on, is_many_back) = match self.owed {
            Owed::Nothing => (false, false),
            Owed::On(_) => (true, false),
            Owed::Back(count) => (false, count > 1),
        };
        if is_many_back && tick.wrapping_sub(self.late_at) > REORDERING {
            self.owed = Owed::Nothing;
            return Wish::Not;
        }
        self.patience = self.patience.saturating_sub(1);
        if !(waits && (is_on || is_whole)) {
            Wish::Now
        } else if tick.wrapping_sub(self.slipped_at) < REST {
            Wish::Not
        } else if self.patience == 0 {
            Wish::Now
        } else {
            Wish::IfSoft
        }
    }

    /// Makes one of the slips that are owed.
    pub fn slip(&mut self, tick: u32)
        ensures { self.new ≡ slipped self.old tick }
    {
        match self.owed {
            Owed::Nothing => return,
            Owed::On(_) => self.shift = self.shift.wrapping_add(1),
            Owed::Back(_) => self.shift = self.shift.wrapping_sub(1),
        }
        self.owed = self.owed.fewer();
        self.slipped_at = tick;
        self.watch = Watch::home(tick);
    }

    /// The clock has given up so many periods, which aren't played.
    pub fn give_up(&mut self, periods: u32)
        ensures { self.new ≡ given_up self.old periods }
    {
        self.shift = self.shift.wrapping_add(periods);
    }
}
