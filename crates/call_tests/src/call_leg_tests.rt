//! One leg: what it sends and plays alone and bridged, and how it shifts its frames.

ghost use Rattle.std.specs.Prelude.{◌+◌, ◌≤◌, ◌≤ℤ◌, pos};
ghost use Rattle.call_leg.specs.Memory.{periods_of_leg};

use crate::rows::assert_row;
use call_leg::Leg;
use rx_handler::Effective;
use std::alloc::{AllocError, Global};
use std::process::Abort;
use trau_alaw::Law;
use trau_io::Counts;
use trau_orders::DtxMode;

// An uplink frame of good speech. `up` sets its alignment field, and D8 to D15.
static SPEECH: [u8; 40] = [
    0x00, 0x00, 0x88, 0x00, 0x82, 0x09, 0xBA, 0x1A, 0xE4, 0x28, 0x80, 0x12, 0xA4, 0x92, 0xA4, 0x92,
    0xA2, 0x80, 0x81, 0x24, 0xC9, 0x24, 0xC9, 0x24, 0xA8, 0x00, 0x92, 0x49, 0x92, 0x49, 0x92, 0x45,
    0x80, 0x02, 0xA4, 0x92, 0xA4, 0x92, 0xA6, 0xFF,
];

// Good speech with this alignment field, and with D8 to D15 as given.
fn up(field: u8, d: u8) -> [u8; 40] {
    let mut octets = SPEECH;
    octets[2] |= field >> 4 & 3;
    octets[3] = field << 4;
    octets[5] = d;
    octets
}

// A leg, and how many periods it may still process. Its type bounds that number, so no test has to show the bound.
#[derive(Drop)]
pub(crate) struct Worked {
    leg: Leg,
    left: u32,
    ghost few: { periods_of_leg leg + left ≤ 1000 },
}

impl Worked {
    fn new(alloc: Global, call: u32, law: Law) -> Result<Worked, AllocError> {
        let leg = Leg::new(alloc, call.clamp(1, 4096), law)?;
        Ok(Worked { leg, left: 100 })
    }

    // A period in which the exchange sends the same octet all the time. Returns the octets of the Out and Down lines.
    pub(crate) fn period_of(&mut self, up: &[u8; 40], octet: u8) -> ([u8; 160], [u8; 40]) {
        let mut out = [0; 160];
        let mut down = [0; 40];
        if self.left == 0 {
            return (out, down);
        }
        self.left -= 1;
        self.leg.period(up, &[octet; 160], &mut out, &mut down);
        (out, down)
    }

    // The same for a silent exchange.
    fn period(&mut self, up: &[u8; 40]) -> ([u8; 160], [u8; 40]) {
        self.period_of(up, 0xD5)
    }

    // The uplink half of a period.
    fn hear(&mut self, up: &[u8; 40]) -> Effective {
        if self.left == 0 {
            return Effective::Quiet;
        }
        self.left -= 1;
        self.leg.up_half(up, &mut [0; 160])
    }

    // The downlink half of a bridged period, with the partner's frame. Returns the octets of the Down line.
    fn speak(&mut self, partner: Effective) -> [u8; 40] {
        let mut down = [0; 40];
        self.leg.hand(partner);
        self.leg.down_half(&[0xD5; 160], &mut down);
        down
    }

    fn begin_bridge(&mut self) {
        self.leg.bridge_on();
    }

    fn end_bridge(&mut self) {
        self.leg.bridge_off();
    }

    // How many handed frames of the latest bridge were sent, and whether one waits after it.
    fn handed(&self) -> (u32, bool) {
        (self.leg.sent(), self.leg.draining())
    }

    fn counts(&self) -> Counts {
        self.leg.counts()
    }

    // Sets DTX on, and this level.
    fn send_silence_below(&mut self, level: i16)
        requires { pos 0 ≤ℤ level }
    {
        self.leg.set_dtx(DtxMode::On);
        self.leg.set_level(level);
    }
}

// A leg before its first period.
pub(crate) fn new_leg(rt: &impl Abort, alloc: Global, call: u32, law: Law) -> Worked {
    Worked::new(alloc, call, law).expect(rt, "memory")
}

const IDLE: [u8; 40] = [
    0x00, 0x00, 0xB8, 0x0F, 0xFF, 0xFF, 0xFF, 0xFF, 0xFF, 0xFF, 0xFF, 0xFF, 0xFF, 0xFF, 0xFF, 0xFF,
    0xFF, 0xFF, 0xFF, 0xFF, 0xFF, 0xFF, 0xFF, 0xFF, 0xFF, 0xFF, 0xFF, 0xFF, 0xFF, 0xFF, 0xFF, 0xFF,
    0xFF, 0xFF, 0xFF, 0xFF, 0xFF, 0xFF, 0xFF, 0xFF,
];

// The Down octets of three periods without a frame: 320 ones and two idle frames.
static QUIET: [[u8; 40]; 3] = [[0xFF; 40], IDLE, IDLE];

// What is counted in these periods.
static THREE: Counts = Counts {
    good: 0,
    sid: 0,
    invalid: 0,
    bad: 0,
    idle: 0,
    other: 0,
    miss: 0,
    none: 3,
    made: 3,
};

// Whether three periods in which nothing is found on the uplink are like that, with silence on the Out line.
fn stays_quiet(leg: &mut Worked, silence: u8) -> bool {
    for down in &QUIET {
        if leg.period_of(&[0; 40], silence) != ([silence; 160], *down) {
            return false;
        }
    }
    leg.counts() == THREE
}

// The alignment field of a period of good speech, and how its Down octets begin and end.
struct Shift {
    field: u8,
    begin: &'static [u8],
    end: &'static [u8],
}

static SHIFTS: [Shift; 5] = [
    Shift {
        field: 39,
        begin: &[0xFF; 40],
        end: &[],
    },
    Shift {
        field: 0,
        begin: &[0x00, 0x00, 0xF0, 0x0F],
        end: &[],
    },
    Shift {
        field: 63,
        begin: &[0xFF],
        end: &[0xFF, 0xFF, 0x00],
    },
    Shift {
        field: 40,
        begin: &[0x00, 0xF0, 0x0F],
        end: &[0x00],
    },
    Shift {
        field: 0,
        begin: &[0x0F, 0x00],
        end: &[],
    },
];

// Whether a period has such Down octets.
fn sends(leg: &mut Worked, shift: &Shift) -> bool {
    let down = leg.period(&up(shift.field, 9)).1;
    down.starts_with(shift.begin) && down.ends_with(shift.end)
}

// Whether each of these periods has such Down octets, and four frames are made in five periods of good speech.
// Field 39 in period 0, 63 in period 2, 40 in period 3: 312 ones follow frame 0, and frame 1 has 316 bits.
fn sends_all(leg: &mut Worked) -> bool {
    for shift in &SHIFTS {
        if !sends(leg, shift) {
            return false;
        }
    }
    let counts = leg.counts();
    counts.made == 4 && counts.good == 5
}

// A period of two bridged legs: both uplink halves, the handing over, both downlink halves. Returns the Down octets
// of the second.
fn bridged(a: &mut Worked, b: &mut Worked, d: u8) -> [u8; 40] {
    let e = a.hear(&up(0, d));
    let f = b.hear(&up(0, 9));
    a.speak(f);
    b.speak(e)
}

fn begin_bridge(a: &mut Worked, b: &mut Worked) {
    a.begin_bridge();
    b.begin_bridge();
}

fn end_bridge(a: &mut Worked, b: &mut Worked) {
    a.end_bridge();
    b.end_bridge();
}

// A period of both legs alone. Returns the Down octets of the second.
fn alone(a: &mut Worked, b: &mut Worked) -> [u8; 40] {
    a.period(&up(0, 9));
    b.period(&up(0, 9)).1
}

// Four periods of two legs alone, then a bridge of six. Returns the fifth Down octet of the second leg in each
// period of the bridge. From its last period alone on, the second leg has octets to skip.
fn go_over_to_a_bridge(a: &mut Worked, b: &mut Worked) -> [u8; 6] {
    for k in 0..4u8 {
        a.period(&up(0, k));
        b.period(&up(if k == 3 { 39 } else { 0 }, 9));
    }
    begin_bridge(a, b);
    let mut octets = [0; 6];
    for k in 0..6u8 {
        octets[usize::from(k)] = bridged(a, b, k + 4)[4];
    }
    octets
}

// Whether the frames 4 to 7 of the first leg go out within the bridge. When it ends, the first leg has sent six
// frames and none waits; the second has sent five, and then sends the frames 8 and 9, which are the last.
fn frames_go_out_in_order(a: &mut Worked, b: &mut Worked) -> bool {
    let within = go_over_to_a_bridge(a, b);
    end_bridge(a, b);
    let ended = (a.handed(), b.handed());
    let behind = [alone(a, b)[4], alone(a, b)[4]];
    let in_order = within.ends_with(&[4, 5, 6, 7]) && behind == [8, 9];
    in_order && (ended, b.handed()) == (((6, false), (5, true)), (6, false))
}

// A bridge of one period with this octet of the first leg, then a period of both alone. Whether the second leg has
// sent no frame when the bridge begins and one when it ends, with none waiting, and the octet goes out in the next
// period.
fn hands_one(a: &mut Worked, b: &mut Worked, d: u8) -> bool {
    begin_bridge(a, b);
    let begun = b.handed();
    bridged(a, b, d);
    end_bridge(a, b);
    let ended = b.handed();
    alone(a, b)[5] == d && [begun, ended] == [(0, false), (1, false)]
}

// The same for two bridges, with a period alone between them.
fn hands_one_each(a: &mut Worked, b: &mut Worked) -> bool {
    let first = hands_one(a, b, 1);
    alone(a, b);
    hands_one(a, b, 4) && first
}

// What two legs are bridged for.
enum Bridging {
    // Six periods from period 4 on. The second leg has octets to skip at the start, so the frames of the first go out
    // one period late, the last of them after the end.
    SixPeriods,
    // One period, and one more two periods later. Each bridge hands over one frame.
    OnePeriod,
}

static BRIDGES: [(usize, Bridging); 2] = [(6, Bridging::SixPeriods), (1, Bridging::OnePeriod)];

// Whether frames are handed over as they should.
fn are_handed(a: &mut Worked, b: &mut Worked, bridging: &Bridging) -> bool {
    match bridging {
        Bridging::SixPeriods => frames_go_out_in_order(a, b),
        Bridging::OnePeriod => hands_one_each(a, b),
    }
}

// Each row is named by the periods of its bridge.
#[test]
fn bridges_of_two_legs(rt: HostRuntime) {
    for (periods, bridging) in &BRIDGES {
        let mut a = new_leg(&rt, rt.alloc(), 7, Law::A);
        let mut b = new_leg(&rt, rt.alloc(), 9, Law::A);
        assert_row(&rt, *periods, are_handed(&mut a, &mut b, bridging));
    }
}

// Two periods of good speech in which the exchange speaks. Returns the Out octets of the first, and the Down octets
// of both.
fn two_spoken(leg: &mut Worked) -> ([u8; 160], [u8; 40], [u8; 40]) {
    let (out, first) = leg.period_of(&up(0, 9), 0x2A);
    let second = leg.period_of(&up(0, 9), 0x2A).1;
    (out, first, second)
}

// Two periods, a bridge without any, and two more: whether what was heard and sent first comes again. After a bridge
// without any period the codecs are in their reset state: the next frame is a first one.
fn goes_home(leg: &mut Worked) -> bool {
    let (home, _, first) = two_spoken(leg);
    leg.begin_bridge();
    leg.end_bridge();
    let (again, second, third) = two_spoken(leg);
    again == home && third == first && second != first
}

// A period of good speech and a silent exchange: whether its frame has SP 1.
fn is_speech(leg: &mut Worked) -> bool {
    leg.period(&up(0, 9)).1[38] & 2 == 2
}

// Five periods with DTX on and each peak below the level, and two at level 0, where no frame is silence: whether only
// the fifth frame, in the sixth period, has SP 0.
fn one_is_silence(leg: &mut Worked) -> bool {
    leg.send_silence_below(32767);
    for _ in 0..5 {
        if !is_speech(leg) {
            return false;
        }
    }
    leg.send_silence_below(0);
    !is_speech(leg) && is_speech(leg)
}

// What one leg does in its first periods.
enum First {
    Quiet { silence: u8 },
    Shifts,
    GoesHome,
    SendsSilence,
}

static FIRST: [(u32, Law, First); 5] = [
    (1, Law::A, First::Quiet { silence: 0xD5 }),
    (4096, Law::Mu, First::Quiet { silence: 0xFF }),
    (7, Law::A, First::Shifts),
    (5, Law::A, First::GoesHome),
    (3, Law::A, First::SendsSilence),
];

// Whether a new leg does this.
fn does(leg: &mut Worked, first: &First) -> bool {
    match first {
        First::Quiet { silence } => stays_quiet(leg, *silence),
        First::Shifts => sends_all(leg),
        First::GoesHome => goes_home(leg),
        First::SendsSilence => one_is_silence(leg),
    }
}

// Each row is named by its call.
#[test]
fn one_leg(rt: HostRuntime) {
    for (call, law, first) in &FIRST {
        let mut leg = new_leg(&rt, rt.alloc(), *call, *law);
        assert_row(&rt, *call as usize, does(&mut leg, first));
    }
}
