//! The slot of one period among others.

ghost use Rattle.std.specs.Prelude.{◌≡◌, ◌≢◌, ◌≤◌, ◌<◌, ◌+◌, ℕ, length, slice_index, slice_index_or, true, false, Some, None, if◌then◌else◌};
ghost use Rattle.rtp_buffer.specs.declared.octet.Octet.TheVariants.{Missing};
ghost use Rattle.rtp_buffer.specs.Octets.{with_octet, came, after_taking, after_leaving_out, heard, held, has_come};
ghost use Rattle.rtp_buffer.specs.Store.{in_slot, is_before};

use crate::octet::{self, Octet};

/// A period, and what is known of its octets.
#[derive(Clone, Copy)]
#[repr(C)]
pub struct Slot<const N: usize> {
    /// The period, modulo 2 to the 32nd.
    pub period: u32,
    /// Its octets.
    pub octets: [Octet; N],
}

impl<const N: usize> Slot<N> {
    // Makes it the slot of a period, of which what was known stays.
    fn open(&mut self, period: u32)
        ensures period { self.new.period ≡ period }
        ensures octets { (k : ℕ) → slice_index_or self.new.octets k Missing ≡ in_slot self.old period k }
    {
        if self.period != period {
            *self = Slot {
                period,
                octets: [Octet::Missing; N],
            };
        }
    }

    // Takes octets of a period, from one of its places on, where none came.
    pub(crate) fn put(&mut self, period: u32, part: usize, octets: &[u8])
        requires { part + length octets.now ≤ N }
        ensures own { (k : ℕ) → in_slot self.new period k ≡ with_octet (in_slot self.old period k) (came part octets.now (length octets.now) k) }
        ensures others { (other k : ℕ) → other ≢ period → in_slot self.new other k ≡ Missing }
    {
        self.open(period);
        octet::put(&mut self.octets, part, octets);
    }

    // What is played of a period.
    pub(crate) fn take(&mut self, period: u32, filler: u8) -> [u8; N]
        ensures heard { (k : ℕ) → k < N → slice_index result k ≡ heard (in_slot self.old period k) filler }
        ensures own { (k : ℕ) → in_slot self.new period k ≡ after_taking (in_slot self.old period k) }
        ensures others { (other k : ℕ) → other ≢ period → in_slot self.new other k ≡ in_slot self.old other k }
    {
        if self.period == period {
            octet::take(&mut self.octets, filler)
        } else {
            octet::fill(filler)
        }
    }

    // What would be played of a period.
    pub(crate) fn look(&self, period: u32, filler: u8) -> [u8; N]
        ensures { (k : ℕ) → k < N → slice_index result k ≡ heard (in_slot self.now period k) filler }
    {
        if self.period == period {
            octet::look(&self.octets, filler)
        } else {
            octet::fill(filler)
        }
    }

    // Leaves out what waits of a period.
    pub(crate) fn leave_out(&mut self, period: u32)
        ensures own { (k : ℕ) → in_slot self.new period k ≡ after_leaving_out (in_slot self.old period k) }
        ensures others { (other k : ℕ) → other ≢ period → in_slot self.new other k ≡ in_slot self.old other k }
    {
        if self.period == period {
            octet::leave_out(&mut self.octets);
        }
    }

    // Whether so many octets of a period came, from a place on.
    pub(crate) fn have_come(&self, period: u32, part: usize, count: usize) -> bool
        requires { part + count ≤ N }
        ensures yes { result ≡ true → (k : ℕ) → part ≤ k → k < part + count → has_come (in_slot self.now period k) ≡ true }
        ensures no { result ≡ false → (k : ℕ) × (part ≤ k) × (k < part + count) × (has_come (in_slot self.now period k) ≡ false) }
    {
        if self.period == period {
            octet::have_come(&self.octets, part, count)
        } else {
            count == 0
        }
    }

    // Whether an octet of a period waits.
    pub(crate) fn waits(&self, period: u32) -> bool
        ensures yes { result ≡ true → (k : ℕ) × (octet : ℕ) × (held (in_slot self.now period k) ≡ Some octet) }
        ensures no { result ≡ false → (k : ℕ) → held (in_slot self.now period k) ≡ None }
    {
        self.period == period && octet::some_wait(&self.octets)
    }

    // Forgets all.
    pub(crate) fn clear(&mut self)
        ensures { (k : ℕ) → slice_index_or self.new.octets k Missing ≡ Missing }
    {
        *self = Slot {
            period: self.period,
            octets: [Octet::Missing; N],
        };
    }

    // Leaves out what waits, if its period is before this one.
    pub(crate) fn leave_out_before(&mut self, first: u32)
        ensures { (period k : ℕ) → in_slot self.new period k ≡ (if is_before period first then after_leaving_out (in_slot self.old period k) else in_slot self.old period k) }
    {
        if self.period.wrapping_sub(first) >= 0x8000_0000 {
            octet::leave_out(&mut self.octets);
        }
    }
}
