//! The periods of a line that came and aren't played yet, and what is known of those before them.

ghost use Rattle.std.specs.Prelude.{◌≡◌, ◌≢◌, ◌≤◌, ◌<◌, ◌+◌, ℕ, List, ◌∷◌, [], length, slice_index, unwrap_or, true, false, Some, None, if◌then◌else◌};
ghost use Rattle.rtp_buffer.specs.declared.octet.Octet.TheVariants.{Missing};
ghost use Rattle.rtp_buffer.specs.Octets.{with_octet, came, after_taking, after_leaving_out, heard};
ghost use Rattle.rtp_buffer.specs.Store.{place, content, known, slot_of, is_before, IsNear};
ghost use Rattle.rtp_buffer.specs.History.{Deed, Put, Take, LeaveOut, LeaveOutBefore, Stands, first_came, is_waiting};

use crate::slot::Slot;

/// The periods with these numbers, modulo 2 to the 32nd, each in the slot of its number modulo 256.
#[derive(Clone, Copy)]
#[repr(C)]
pub struct Store<const N: usize> {
    pub slots: [Slot<N>; 256],
}

// Whether so many octets of a period came.
fn have_come_in<const N: usize>(
    slots: &[Slot<N>; 256],
    period: u32,
    part: usize,
    count: usize,
) -> bool
    requires { part + count ≤ N }
    ensures yes { result ≡ true → (k : ℕ) → part ≤ k → k < part + count → known slots.now period k ≡ true }
    ensures no { result ≡ false → (k : ℕ) × (part ≤ k) × (k < part + count) × (known slots.now period k ≡ false) }
{
    slots[(period % 256) as usize].have_come(period, part, count)
}

// Whether an octet of a period waits.
fn waits_in<const N: usize>(slots: &[Slot<N>; 256], period: u32) -> bool
    ensures yes { result ≡ true → (k : ℕ) × (octet : ℕ) × (content slots.now period k ≡ Some octet) }
    ensures no { result ≡ false → (k : ℕ) → content slots.now period k ≡ None }
{
    slots[(period % 256) as usize].waits(period)
}

// What would be played of a period.
fn look_in<const N: usize>(slots: &[Slot<N>; 256], period: u32, filler: u8) -> [u8; N]
    ensures { (k : ℕ) → k < N → slice_index result k ≡ heard (place slots.now period k) filler }
{
    slots[(period % 256) as usize].look(period, filler)
}

impl<const N: usize> Store<N> {
    /// Forgets all that came.
    pub fn clear(&mut self)
        ensures empty { (period k : ℕ) → place self.new.slots period k ≡ Missing }
        ensures stands { Stands [] self.new.slots }
    {
        for n in 0..256 {
            self.slots[n].clear();
        }
    }

    // Takes octets of a period where none came.
    fn put_there(&mut self, period: u32, part: usize, octets: &[u8])
        requires { part + length octets.now ≤ N }
        ensures own { (k : ℕ) → place self.new.slots period k ≡ with_octet (place self.old.slots period k) (came part octets.now (length octets.now) k) }
        ensures same_slot { (other k : ℕ) → slot_of other ≡ slot_of period → other ≢ period → place self.new.slots other k ≡ Missing }
        ensures others { (other k : ℕ) → slot_of other ≢ slot_of period → place self.new.slots other k ≡ place self.old.slots other k }
    {
        self.slots[(period % 256) as usize].put(period, part, octets);
    }

    // What is played of a period.
    fn take_there(&mut self, period: u32, filler: u8) -> [u8; N]
        ensures heard { (k : ℕ) → k < N → slice_index result k ≡ heard (place self.old.slots period k) filler }
        ensures own { (k : ℕ) → place self.new.slots period k ≡ after_taking (place self.old.slots period k) }
        ensures others { (other k : ℕ) → other ≢ period → place self.new.slots other k ≡ place self.old.slots other k }
    {
        self.slots[(period % 256) as usize].take(period, filler)
    }

    // Leaves out what waits of a period.
    fn leave_out_there(&mut self, period: u32)
        ensures own { (k : ℕ) → place self.new.slots period k ≡ after_leaving_out (place self.old.slots period k) }
        ensures others { (other k : ℕ) → other ≢ period → place self.new.slots other k ≡ place self.old.slots other k }
    {
        self.slots[(period % 256) as usize].leave_out(period);
    }

    /// Takes octets of a period, from one of its places on, where none came. The first octet that comes for a place
    /// stays.
    pub fn put(&mut self, period: u32, part: usize, octets: &[u8])
        requires { part + length octets.now ≤ N }
        ensures own { (k : ℕ) → place self.new.slots period k ≡ with_octet (place self.old.slots period k) (came part octets.now (length octets.now) k) }
        ensures same_slot { (other k : ℕ) → slot_of other ≡ slot_of period → other ≢ period → place self.new.slots other k ≡ Missing }
        ensures others { (other k : ℕ) → slot_of other ≢ slot_of period → place self.new.slots other k ≡ place self.old.slots other k }
        ensures near { (other k : ℕ) → IsNear period other → place self.new.slots other k ≡ place self.old.slots other k }
        ensures first { (k octet : ℕ) → content self.old.slots period k ≡ Some octet → content self.new.slots period k ≡ Some octet }
        ensures played { (k : ℕ) → known self.old.slots period k ≡ true → place self.new.slots period k ≡ place self.old.slots period k }
        ensures stands { (deeds : List Deed) → Stands deeds self.old.slots → Stands (Put period part octets.now ∷ deeds) self.new.slots }
    {
        self.put_there(period, part, octets);
    }

    /// What is played of a period: the octets that wait, and the filler for the others. Those were played then.
    pub fn take(&mut self, period: u32, filler: u8) -> [u8; N]
        ensures heard { (k : ℕ) → k < N → slice_index result k ≡ heard (place self.old.slots period k) filler }
        ensures own { (k : ℕ) → place self.new.slots period k ≡ after_taking (place self.old.slots period k) }
        ensures others { (other k : ℕ) → other ≢ period → place self.new.slots other k ≡ place self.old.slots other k }
        ensures stands { (deeds : List Deed) → Stands deeds self.old.slots → Stands (Take period ∷ deeds) self.new.slots }

        // What is played at a place is the first octet that came for it in time, or the filler.
        ensures in_time { (deeds : List Deed) → Stands deeds self.old.slots → is_waiting deeds period ≡ true →
            (k : ℕ) → k < N → slice_index result k ≡ unwrap_or (first_came deeds period k) filler }
    {
        self.take_there(period, filler)
    }

    /// Leaves out what waits of a period.
    pub fn leave_out(&mut self, period: u32)
        ensures own { (k : ℕ) → place self.new.slots period k ≡ after_leaving_out (place self.old.slots period k) }
        ensures others { (other k : ℕ) → other ≢ period → place self.new.slots other k ≡ place self.old.slots other k }
        ensures stands { (deeds : List Deed) → Stands deeds self.old.slots → Stands (LeaveOut period ∷ deeds) self.new.slots }
    {
        self.leave_out_there(period);
    }

    /// Leaves out what waits of periods before this one.
    pub fn leave_out_before(&mut self, first: u32)
        ensures value { (period k : ℕ) → place self.new.slots period k ≡ (if is_before period first then after_leaving_out (place self.old.slots period k) else place self.old.slots period k) }
        ensures stands { (deeds : List Deed) → Stands deeds self.old.slots → Stands (LeaveOutBefore first ∷ deeds) self.new.slots }
    {
        for n in 0..256 {
            self.slots[n].leave_out_before(first);
        }
    }

    /// Whether so many octets of a period came, from a place on.
    pub fn have_come(&self, period: u32, part: usize, count: usize) -> bool
        requires { part + count ≤ N }
        ensures yes { result ≡ true → (k : ℕ) → part ≤ k → k < part + count → known self.now.slots period k ≡ true }
        ensures no { result ≡ false → (k : ℕ) × (part ≤ k) × (k < part + count) × (known self.now.slots period k ≡ false) }
    {
        have_come_in(&self.slots, period, part, count)
    }

    /// Whether an octet of a period waits.
    pub fn waits(&self, period: u32) -> bool
        ensures yes { result ≡ true → (k : ℕ) × (octet : ℕ) × (content self.now.slots period k ≡ Some octet) }
        ensures no { result ≡ false → (k : ℕ) → content self.now.slots period k ≡ None }
    {
        waits_in(&self.slots, period)
    }

    /// What would be played of a period.
    pub fn look(&self, period: u32, filler: u8) -> [u8; N]
        ensures { (k : ℕ) → k < N → slice_index result k ≡ heard (place self.now.slots period k) filler }
    {
        look_in(&self.slots, period, filler)
    }
}
