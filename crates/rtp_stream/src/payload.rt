//! The octets of a payload, laid over the periods of a jitter buffer.

ghost use Rattle.std.specs.Prelude.{◌≡◌, ◌≢◌, ◌<◌, ◌≤◌, ◌+◌, ◌-◌, ◌*◌, ◌^◌, ℕ, ◌&&◌, if◌then◌else◌, ◌==◌, min, List, length, Some};
ghost use Rattle.rtp_buffer.specs.declared.octet.Octet.TheVariants.{Missing};
ghost use Rattle.rtp_buffer.specs.Octets.{came};
ghost use Rattle.rtp_buffer.specs.Store.{place, slot_of};
ghost use Rattle.rtp_buffer.specs.History.{Deed, Stands};
ghost use Rattle.rtp_buffer.specs.Watch.{on};
ghost use Rattle.rtp_buffer.specs.Pace.{wait_of};
ghost use Rattle.rtp_buffer.specs.Buffer.{newest_wait, newer_of, outcome_of};
ghost use Rattle.rtp_stream.specs.Payload.{octets_before, with_payload, IsLaid, IsKeptBefore, IsLaidEverywhere, start_of, octets_of, count_of, with_put, with_periods, most_periods, period_outcome, is_taken, is_late_one, is_doubled, periods_that, newest_after, pace_told, pace_laid};

use rtp_buffer::{Buffer, Outcome};

// Periods in which a payload of at most a second may lie.
const MOST_PERIODS: u32 = 51;

/// The periods of a payload that weren't taken.
#[derive(Clone, Copy)]
pub struct Laid {
    /// Those of which octets came too late.
    pub late: u32,
    /// Those of which all octets had come before.
    pub doubled: u32,
}

impl Laid {
    // With one period more.
    fn with(self, outcome: Outcome) -> Laid
        ensures taken { outcome ≡ Outcome.Taken → result ≡ self }
        ensures late { outcome ≡ Outcome.Late → result ≡ record self { late = min (self.late + 1) (2 ^ 32 - 1) } }
        ensures doubled { outcome ≡ Outcome.Doubled → result ≡ record self { doubled = min (self.doubled + 1) (2 ^ 32 - 1) } }
    {
        match outcome {
            Outcome::Taken => self,
            Outcome::Late => Laid {
                late: self.late.saturating_add(1),
                doubled: self.doubled,
            },
            Outcome::Doubled => Laid {
                late: self.late,
                doubled: self.doubled.saturating_add(1),
            },
        }
    }
}

// The place of its n-th period at which a payload begins that begins at the `part`-th place of the first.
fn start_in(n: u32, part: usize) -> usize
    ensures { result ≡ (if n == 0 then part else 0) }
{
    if n == 0 { part } else { 0 }
}

// Whether the n-th period of a payload says something about the path: only the first one does.
fn is_told_by(n: u32, is_watched: bool) -> bool
    ensures { result ≡ (is_watched && (n == 0)) }
{
    is_watched && n == 0
}

// Lays the n-th period of a payload, of which the octets before this one were laid and some are left; returns the octet
// that is next, and what became of the period.
fn lay_period<const N: usize>(
    buffer: &mut Buffer<N>,
    first: u32,
    part: usize,
    payload: &[u8],
    n: u32,
    at: usize,
    tick: u32,
    is_watched: bool,
) -> (usize, Outcome)
    requires part { part < N }
    requires at { at ≡ octets_before (n * N) part (length payload.now) }
    requires left { at < length payload.now }
    ensures at { result.0 ≡ octets_before ((n + 1) * N) part (length payload.now) }
    ensures outcome { result.1 ≡ outcome_of buffer.old (on first n) (start_of part n) (count_of N part (length payload.now) n) tick }
    ensures shift { buffer.new.pace.shift ≡ buffer.old.pace.shift }
    ensures own { (k : ℕ) → k < N → place buffer.new.store.slots (on first n) k ≡
        with_payload (wait_of buffer.old.pace (on first n) tick) (place buffer.old.store.slots (on first n) k) (came part payload.now (length payload.now) (n * N + k)) }
    ensures others { (other k : ℕ) → other ≢ on first n → place buffer.new.store.slots other k ≡
        (if (slot_of other == slot_of (on first n)) && is_taken (Some result.1) then Missing else place buffer.old.store.slots other k) }
    ensures stands { (deeds : List Deed) → Stands deeds buffer.old.store.slots →
        Stands (with_put (wait_of buffer.old.pace (on first n) tick) (on first n) (start_of part n) (octets_of N part payload.now n) deeds) buffer.new.store.slots }
    ensures newest { buffer.new.newest ≡ (if is_taken (Some result.1) then newer_of buffer.old.newest (on first n) else buffer.old.newest) }
    ensures told { buffer.new.pace ≡ pace_told (Some result.1) buffer.old.pace (wait_of buffer.old.pace (on first n) tick)
        (newest_wait buffer.old.pace buffer.old.newest tick) tick (is_watched && (n == 0)) }
    ensures later { n ≢ 0 → buffer.new.pace ≡ buffer.old.pace }
{
    let start = start_in(n, part);
    let size = (N - start).min(payload.len() - at);
    let is_watched = is_told_by(n, is_watched);
    let outcome = buffer.put(
        first.wrapping_add(n),
        start,
        &payload[at..at + size],
        tick,
        is_watched,
    );
    (at + size, outcome)
}

/// Lays a payload of at most a second over the periods of a buffer, from the `part`-th octet of a period on.
/// `is_watched`: its first period says something about the path.
pub fn lay<const N: usize>(
    buffer: &mut Buffer<N>,
    first: u32,
    part: usize,
    payload: &[u8],
    tick: u32,
    is_watched: bool,
) -> Laid
    requires part { part < N }
    requires size { length payload.now ≤ 50 * N }
    ensures shift { buffer.new.pace.shift ≡ buffer.old.pace.shift }
    ensures laid { IsLaid buffer.old.pace tick buffer.old.store.slots buffer.new.store.slots first part payload.now }
    ensures before { IsKeptBefore buffer.old.store.slots buffer.new.store.slots first }
    ensures everywhere { IsLaidEverywhere buffer.old buffer.new tick first part payload.now }

    // So what is played at a place (`in_time` of `Buffer::take`) is the first octet that a stream's packets brought for
    // it in time.
    ensures stands { (deeds : List Deed) → Stands deeds buffer.old.store.slots →
        Stands (with_periods N buffer.old.pace tick first part payload.now most_periods deeds) buffer.new.store.slots }

    // Each period of the payload counts once, by what the buffer had before it.
    ensures late { result.late ≡ periods_that (λ n. is_late_one (period_outcome buffer.old tick first part (length payload.now) n)) }
    ensures doubled { result.doubled ≡ periods_that (λ n. is_doubled (period_outcome buffer.old tick first part (length payload.now) n)) }
    ensures newest { buffer.new.newest ≡
        newest_after (λ n. is_taken (period_outcome buffer.old tick first part (length payload.now) n)) first buffer.old.newest most_periods }

    // The first period alone says something of the path, if octets of it were lacking.
    ensures told { buffer.new.pace ≡ pace_laid buffer.old tick first part (length payload.now) is_watched }
{
    let mut laid = Laid {
        late: 0,
        doubled: 0,
    };
    let mut at = 0;
    for n in 0..MOST_PERIODS {
        if at == payload.len() {
            return laid;
        }
        let (next, outcome) = lay_period(buffer, first, part, payload, n, at, tick, is_watched);
        laid = laid.with(outcome);
        at = next;
    }
    laid
}
