//! What is seen of a path: how long packets wait, and in which bursts they are late (this project's profile).

ghost use Rattle.std.specs.Prelude.{◌≡◌, ◌<◌, ◌≤◌, ◌+◌, ℕ, List, length, sum, take, drop, slice_index, nat_lt};
ghost use Rattle.std.specs.List.{list_any};
ghost use Rattle.rtp_buffer.specs.Watch.{watch_home, with_wait, is_within, place_of_rank, is_long, is_due, least_of};

/// Waits are told apart from so many ticks too late up to so many ticks, one second.
pub(crate) const MOST_TOLD: u32 = 50;

/// A packet that waits so many ticks waits long.
pub(crate) const LONG_WAIT: u32 = 40;

// A path is judged by so many packets, or after so many ticks, 10 s, by at least so few packets.
const WINDOW: u32 = 500;

const FEWEST: u32 = 50;

// One packet in so many may come too late without a slip back.
const STRAGGLERS: u32 = 100;

/// Late packets that came together; `late` is 0 if none did.
#[derive(Clone, Copy)]
#[repr(C)]
pub struct Burst {
    /// The tick of the first one.
    pub tick: u32,
    /// The ticks by which that was late.
    pub late: u32,
}

/// What was seen from a tick on, which may be ahead.
#[derive(Clone, Copy)]
#[repr(C)]
pub struct Watch {
    /// The tick.
    pub from: u32,
    /// The packets.
    pub count: u32,
    /// How many of them waited for so many ticks, from 50 too late to 50.
    pub waits: [u32; 101],
    /// The latest burst but one.
    pub before: Burst,
    /// The latest one.
    pub last: Burst,
}

impl Burst {
    // Whether it came at most so many ticks ago.
    pub(crate) fn is_within(self, tick: u32, ticks: u32) -> bool
        ensures { result ≡ is_within self tick ticks }
    {
        self.late > 0 && tick.wrapping_sub(self.tick) <= ticks
    }
}

// The place of the packet of this rank, if they are counted from the first place on.
fn place_of_rank(waits: &[u32; 101], rank: u32) -> u32
    ensures value { result ≡ place_of_rank waits.now rank }
    ensures bound { result ≤ 101 }
{
    let mut left = rank;
    for n in 0..101u32 {
        let here = waits[n as usize];
        if left < here {
            return n;
        }
        left -= here;
    }
    101
}

// Whether one of these isn't 0.
fn some_came(counts: &[u32]) -> bool
    ensures { result ≡ list_any (λ count. nat_lt 0 count) counts.now }
{
    counts.iter().any(|count| *count > 0)
}

impl Watch {
    /// Nothing was seen before this tick.
    pub fn home(tick: u32) -> Watch
        ensures { result ≡ watch_home tick }
    {
        let none = Burst { tick: 0, late: 0 };
        Watch {
            from: tick,
            count: 0,
            waits: [0; 101],
            before: none,
            last: none,
        }
    }

    /// A packet came at this tick that waits so long.
    pub fn see(&mut self, wait: u32, tick: u32)
        ensures { self.new ≡ with_wait self.old wait tick }
    {
        let place = wait.wrapping_add(MOST_TOLD);
        let has_begun = tick.wrapping_sub(self.from) < 0x8000_0000;
        if has_begun && place < 101 {
            let seen = self.waits[place as usize];
            self.waits[place as usize] = seen.wrapping_add(1);
            self.count = self.count.wrapping_add(1);
        }
    }

    // Whether enough was seen.
    pub(crate) fn is_due(&self, tick: u32) -> bool
        ensures { result ≡ is_due self.now tick }
    {
        self.count >= WINDOW || tick.wrapping_sub(self.from) >= WINDOW && self.count >= FEWEST
    }

    // The least wait, but for a hundredth part of the packets, and 50.
    pub(crate) fn least(&self) -> u32
        ensures value { result ≡ least_of self.now }
        ensures bound { result ≤ 101 }
    {
        place_of_rank(&self.waits, self.count / STRAGGLERS)
    }

    // Whether one waited for 40 ticks or longer.
    pub(crate) fn is_long(&self) -> bool
        ensures { result ≡ is_long self.now.waits }
    {
        some_came(&self.waits[90..101])
    }
}
