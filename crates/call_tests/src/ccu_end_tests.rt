//! A base station's end and a leg in a loop.

ghost use Rattle.std.specs.Prelude.{◌≡◌, ◌<◌, ◌+◌};

use crate::call_leg_tests::{Worked, new_leg};
use crate::rows::assert_rows;
use ccu_end::Ccu;
use trau_alaw::Law;
use trau_bits::pack;

// The place of the last frame found in a period, and the octets that are sent up.
fn follow(ccu: &mut Ccu, down: &[u8; 40]) -> (Option<u64>, [u8; 40])
    requires { ccu.old.periods < 100 }
    ensures { ccu.new.periods ≡ ccu.old.periods + 1 }
{
    let heard = ccu.feed(down);
    let place = match heard.second.or(heard.first) {
        Some(found) => Some(found.place),
        None => None,
    };
    let mut bits = [0; 320];
    ccu.answer(&mut bits);
    let mut up = [0; 40];
    pack(&bits, &mut up);
    (place, up)
}

// How many periods at the end, of eighty with a silent exchange, each found a frame at a place that is 100 modulo 320.
fn periods_in_place(leg: &mut Worked, ccu: &mut Ccu) -> usize
    requires { ccu.old.periods ≡ 0 }
{
    let mut up = [0xFF; 40];
    let mut count = 0usize;
    for period in 0..80u32 {
        let down = leg.period_of(&up, 0xD5).1;
        let (place, answer) = follow(ccu, &down);
        up = answer;
        count = match place {
            Some(place) if place % 320 == 100 => count.saturating_add(1),
            _ => 0,
        };
    }
    count
}

// A loop of leg and base station settles at the wanted place, and stays there.
#[test]
fn the_loop_settles(rt: HostRuntime) {
    let mut leg = new_leg(&rt, rt.alloc(), 1, Law::A);
    let mut ccu = Ccu::new(100);
    let count = periods_in_place(&mut leg, &mut ccu);
    assert_rows(&rt, count, 72);
}
