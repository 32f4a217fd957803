//! What came of one source (RFC 3550, appendices A.1, A.3 and A.8).
//!
//! Whoever reads packets at ticks passes arrivals in whole ticks, and sees jitter in whole ticks.

ghost use Rattle.std.specs.Prelude.{◌≡◌, ◌≤◌, ◌<◌, ◌↔◌, ◌%◌, ◌^◌, IsTrue};
ghost use Rattle.rtp_packet.specs.Reception.{distance, smoothed, most_jitter, jitter_after, is_restart, reception_home, number_taken, time_taken, counted, expected_of, missing_of};

/// Numbers up to so many ahead of the highest one or behind it are of the same run of packets. Others are of a sender
/// that begins anew, or of a packet that doesn't belong (RFC 3550: less than 3,000 ahead, less than 100 behind).
const MOST_GAP: u32 = 3000;

/// Units of the time stamp, one second: a packet that moved by so much or more says nothing about jitter.
const MOST_MOVED: u32 = 8000;

/// What is kept of a source. Sequence numbers are extended to 32 bits (`first`, `highest`): their lower 16 are those of
/// a packet, and after the greatest comes 0. So a stream may last for ever.
#[derive(Clone, Copy)]
pub struct Reception {
    /// The source (SSRC).
    pub source: u32,
    /// The extended number of its first packet.
    pub first: u32,
    /// The highest extended number that came.
    pub highest: u32,
    /// The packets that were counted, modulo 2 to the 32nd.
    pub received: u32,
    /// Sixteen times the interarrival jitter, in units of the time stamp.
    pub jitter: u32,
    /// The latest packet's arrival less its time stamp, in units of the time stamp, if it is known.
    pub transit: Option<u32>,
    /// After a number that was far away, the very next one: the first packet of a sender that begins anew may go on
    /// with it. It stays until another number is far away.
    pub restart: Option<u16>,
}

// How far apart two times are, the nearer way round.
fn distance(a: u32, b: u32) -> u32
    ensures { result ≡ distance a b }
{
    let ahead = a.wrapping_sub(b);
    if ahead < 0x8000_0000 {
        ahead
    } else {
        b.wrapping_sub(a)
    }
}

// Sixteen times the jitter, with a packet that moved by so much.
fn smoothed(jitter: u32, moved: u32) -> u32
    requires { jitter ≤ most_jitter }
    ensures value { result ≡ smoothed jitter moved }
    ensures bound { result ≤ most_jitter }
{
    if moved < MOST_MOVED {
        jitter + moved - (jitter + 8) / 16
    } else {
        jitter
    }
}

// Sixteen times the jitter, after a packet with this transit, and the transit of the one before, if it is known.
fn jitter_after(jitter: u32, before: Option<u32>, now: u32) -> u32
    requires { jitter ≤ most_jitter }
    ensures value { result ≡ jitter_after jitter before now }
    ensures bound { result ≤ most_jitter }
{
    match before {
        None => jitter,
        Some(before) => smoothed(jitter, distance(now, before)),
    }
}

// Whether a number is the one that a sender which begins anew goes on with.
fn is_restart(restart: Option<u16>, number: u16) -> bool
    ensures { result ≡ is_restart restart number }
{
    match restart {
        None => false,
        Some(next) => next == number,
    }
}

impl Reception {
    /// The state before a source's first packet, which has this sequence number.
    pub fn home(source: u32, first: u16) -> Reception
        ensures value { result ≡ reception_home source first }
        ensures smooth { result.jitter ≤ most_jitter }
    {
        Reception {
            source,
            first: u32::from(first),
            highest: u32::from(first).wrapping_sub(1),
            received: 0,
            jitter: 0,
            transit: None,
            restart: None,
        }
    }

    // Takes a packet's number. Returns false if it is far away, and doesn't follow one that was.
    fn take_number(&mut self, number: u16) -> bool
        ensures value { self.new ≡ (number_taken self.old number).0 }
        ensures answer { result ≡ (number_taken self.old number).1 }
    {
        let ahead = u32::from(number.wrapping_sub((self.highest % 65536) as u16));
        if ahead <= MOST_GAP {
            self.highest = self.highest.wrapping_add(ahead);
            true
        } else if ahead >= 65536 - MOST_GAP {
            true
        } else {
            let is_next = is_restart(self.restart, number);
            self.restart = Some(number.wrapping_add(1));
            if is_next {
                self.first = self.first.wrapping_add(ahead - 1);
                self.highest = self.highest.wrapping_add(ahead);
            }
            is_next
        }
    }

    // Takes a packet's transit, if it is known.
    fn take_time(&mut self, transit: Option<u32>)
        requires { self.old.jitter ≤ most_jitter }
        ensures value { self.new ≡ time_taken self.old transit }
        ensures smooth { self.new.jitter ≤ most_jitter }
    {
        if let Some(now) = transit {
            self.jitter = jitter_after(self.jitter, self.transit, now);
        }
        self.transit = transit;
    }

    /// Counts a packet by its sequence number, also a late or a doubled one. `transit`: its arrival less its time
    /// stamp, in units of the time stamp modulo 2 to the 32nd, if its arrival is known.
    pub fn count(&mut self, number: u16, transit: Option<u32>)
        requires { self.old.jitter ≤ most_jitter }
        ensures value { self.new ≡ counted self.old number transit }
        ensures smooth { self.new.jitter ≤ most_jitter }
    {
        if self.take_number(number) {
            self.received = self.received.wrapping_add(1);
            self.take_time(transit);
        }
    }

    /// The packets that are due by their numbers, up to the highest one that came, modulo 2 to the 32nd.
    pub fn expected(&self) -> u32
        ensures { result ≡ expected_of self.now }
    {
        self.highest.wrapping_sub(self.first).wrapping_add(1)
    }

    /// The packets that are missing by their numbers; if more came twice, 2 to the 32nd less how many more.
    pub fn missing(&self) -> u32
        ensures { result ≡ missing_of self.now }
    {
        self.expected().wrapping_sub(self.received)
    }
}
