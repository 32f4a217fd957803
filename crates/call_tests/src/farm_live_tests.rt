//! Tests of a live farm: one caller posts to a call, processes its posts, reads the results, and ends the farm.

ghost use Rattle.std.specs.Prelude.{◌≡◌, ◌≤◌, ◌<◌, ◌+◌, length, slice_index_or, IfOk};
ghost use Rattle.farm_live.specs.Live.{view_of, IsSeated};

use crate::rows::assert_row;
use farm_live::{Caller, Closed, Live, Look, PostFault, Turn};
use std::alloc::{AllocError, Global};
use std::sync::Wait;

// A farm of one call, at which two posts may wait, and its only caller.
#[derive(Drop)]
struct Alone {
    live: Live,
    caller: Caller,
    ghost call: { length live.slots.items ≡ 1 },
    ghost seated: { IsSeated live.inbox live.slots.items caller },
}

// Whether a post was accepted, and its number.
fn numbered(answer: Result<u32, PostFault>) -> (bool, u32) {
    match answer {
        Ok(number) => (true, number),
        Err(PostFault::Full { post }) => (false, post.number),
        Err(PostFault::Busy) => (false, u32::MAX),
    }
}

// Whose post was processed, its number, and how many were before it; none, if the call is idle.
fn worked(answer: Result<Turn, AllocError>) -> Option<(u32, u32, u32)> {
    match answer {
        Ok(
            Turn::Did {
                caller,
                number,
                place,
            },
        ) => Some((caller, number, place)),
        Ok(Turn::Idle) => None,
        Ok(Turn::Busy) | Err(_) => Some((u32::MAX, 0, 0)),
    }
}

// An idle frame.
fn idle() -> [u8; 40] {
    let mut octets = [0xFF; 40];
    octets[0] = 0x00;
    octets[1] = 0x00;
    octets[2] = 0xB8;
    octets[3] = 0x0F;
    octets
}

impl Alone {
    // Before the first post.
    fn new<R: Wait>(rt: &R, alloc: Global) -> Result<Alone, AllocError>
        ensures { IfOk result (λ f. (s : _) → length (view_of (slice_index_or f.caller.seats.items 0 s)).made ≤ 0) }
    {
        let (live, callers) = Live::new(rt, alloc, 1, 2, 1)?;
        let mut callers = callers;
        match callers.pop() {
            Some(caller) => Ok(Alone { live, caller }),
            None => Err(AllocError),
        }
    }

    // Posts a period without a frame and with a silent exchange, after at most `posts` posts.
    fn post<R: Wait>(&mut self, rt: &R, posts: u32) -> (bool, u32)
        requires posts { (s : _) → length (view_of (slice_index_or self.old.caller.seats.items 0 s)).made ≤ posts }
        requires few { posts < 100 }
        ensures { (s : _) → length (view_of (slice_index_or self.new.caller.seats.items 0 s)).made ≤ posts + 1 }
    {
        let (up, pcm) = ([0; 40], [0xD5; 160]);
        let answer = self.live.post(rt, &mut self.caller, 1, &up, &pcm);
        numbered(answer)
    }

    // Processes the next post.
    fn work<R: Wait>(&mut self, rt: &R, alloc: Global) -> Option<(u32, u32, u32)>
        ensures { (s : _) → (view_of (slice_index_or self.new.caller.seats.items 0 s)).made ≡ (view_of (slice_index_or self.old.caller.seats.items 0 s)).made }
    {
        let answer = self.live.work(rt, alloc, &mut self.caller, 1);
        worked(answer)
    }

    // The Out and Down octets of the post with this number, if it was processed.
    fn read<R: Wait>(&mut self, rt: &R, number: u32) -> Option<([u8; 160], [u8; 40])> {
        match self.live.read(rt, &mut self.caller, 1, 0, number) {
            Look::Found(entry) => {
                let out = entry.out;
                let down = entry.down;
                Some((out, down))
            }
            Look::NotYet => None,
            Look::Busy => Some(([0; 160], [0; 40])),
        }
    }

    // Whether two posts are accepted, and a third one only after a post was processed.
    fn fills<R: Wait>(&mut self, rt: &R, alloc: Global) -> bool
        requires { (s : _) → length (view_of (slice_index_or self.old.caller.seats.items 0 s)).made ≤ 0 }
    {
        let first = self.post(rt, 0);
        let second = self.post(rt, 1);
        let third = self.post(rt, 2);
        let turn = self.work(rt, alloc);
        let again = self.post(rt, 3);
        [first, second, third, again] == [(true, 0), (true, 1), (false, 2), (true, 2)]
            && turn == Some((0, 0, 0))
    }

    // Whether the first post's octets are read, and the third post isn't processed yet.
    fn reads_the_first<R: Wait>(&mut self, rt: &R) -> bool {
        self.read(rt, 0) == Some(([0xD5; 160], [0xFF; 40])) && self.read(rt, 2) == None
    }

    // Whether the other two posts are processed and give idle frames, and then none remains.
    fn empties<R: Wait>(&mut self, rt: &R, alloc: Global) -> bool {
        for due in [Some((0, 1, 1)), Some((0, 2, 2)), None] {
            if self.work(rt, alloc) != due {
                return false;
            }
        }
        let quiet = Some(([0xD5; 160], idle()));
        self.read(rt, 1) == quiet && self.read(rt, 2) == quiet
    }

    // Ends the farm.
    fn close<R: Wait>(self, rt: &R, alloc: Global) -> Result<Vec<Closed>, AllocError> {
        let Alone { live, caller } = self;
        let mut callers = Vec::with_capacity(alloc, 1)?;
        callers.push_reserved(caller);
        Ok(live.close(rt, callers))
    }
}

// Whether one call was closed, with its first post processed and the other two remaining, in order.
fn leaves_two(closed: &[Closed]) -> bool {
    if closed.len() != 1 {
        return false;
    }
    let one = &closed[0];
    let (worked, left) = (one.entries.as_slice(), one.left.as_slice());
    one.call == 1
        && worked.len() == 1
        && worked[0].post.number == 0
        && left.len() == 2
        && left[0].number == 1
        && left[1].number == 2
}

#[test]
fn posts_are_worked_in_order(rt: HostRuntime) {
    let alloc = rt.alloc();
    let mut alone = Alone::new(&rt, alloc).expect(&rt, "memory");
    assert_row(&rt, 1, alone.fills(&rt, alloc));
    assert_row(&rt, 2, alone.reads_the_first(&rt));
    assert_row(&rt, 3, alone.empties(&rt, alloc));
}

#[test]
fn posts_that_wait_are_left(rt: HostRuntime) {
    let alloc = rt.alloc();
    let mut alone = Alone::new(&rt, alloc).expect(&rt, "memory");
    assert_row(&rt, 1, alone.fills(&rt, alloc));
    let closed = alone.close(&rt, alloc).expect(&rt, "memory");
    assert_row(&rt, 2, leaves_two(closed.as_slice()));
}
