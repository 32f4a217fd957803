//! Up lines with the frames of a downlink, on standard error. No clause speaks of it.

use call_number::NUMBERS;
use command_words::{Asked, parse_words};
use farm_top::{DONE, LINE_FAILED};
use frame_sync::{FrameSync, Yield};
use std::fs;
use std::io::Read;
use std::rt::Files;
use trau_frame::{IDLE_SPEECH_DOWN, SPEECH_DOWN, pattern};
use trau_orders::{Order, Orders, What};

// The first frame is looked for in so many periods.
const PERIODS: u32 = 250;

/// Prints of each Up line that the command has read whether its first frame is that of a downlink. `orders` are those
/// of a run.
pub(crate) fn tell_downlinks<R: Eprint + Files + AllocGlobal>(
    rt: &R,
    status: u8,
    words: &[String],
    orders: Option<&[u8]>,
) {
    if status != DONE && status != LINE_FAILED {
        return;
    }
    match (parse_words(rt.alloc(), words), orders) {
        (Ok(Asked::Frames(call)), _) => tell_downlink(rt, call),
        (Ok(Asked::Run(settings) | Asked::Save(settings)), Some(orders)) => {
            tell_opened(rt, orders, settings.periods);
        }
        _ => {}
    }
}

// The same of the calls that orders open within so many periods, once of each.
fn tell_opened<R: Eprint + Files + AllocGlobal>(rt: &R, text: &[u8], periods: u32) {
    let Ok(orders) = Orders::parse(rt.alloc(), text) else {
        return;
    };
    let mut is_told = [false; NUMBERS];
    for order in orders.list() {
        let Some(call) = opened(order, periods) else {
            continue;
        };
        if let Some(is_told) = is_told.get_mut(call as usize) {
            if !*is_told {
                tell_downlink(rt, call);
            }
            *is_told = true;
        }
    }
}

// The call that an order opens, if it does so within so many periods.
fn opened(order: &Order, periods: u32) -> Option<u32> {
    match order.what {
        What::OpenCall { call, .. } if order.stamp < periods => Some(call),
        _ => None,
    }
}

fn tell_downlink<R: Eprint + Files + AllocGlobal>(rt: &R, call: u32) {
    if is_downlink(rt, call).unwrap_or(false) {
        let _ = eprintln!(rt;
            "trau: {call}.up: its first frame is that of a downlink; trau follow {call} 0 reads one"
        );
    }
}

// Whether the first frame of a call's Up line, if that is a file on a disk, is that of a downlink; `None` if it can't
// be known.
fn is_downlink<R: Files + AllocGlobal>(rt: &R, call: u32) -> Option<bool> {
    let name = format!(in rt.alloc(); "{call}.up").ok()?;
    if !fs::metadata(rt, name.as_str()).ok()?.is_file() {
        return None;
    }
    let mut file = fs::open(rt, name.as_str()).ok()?;
    let first = first_pattern(&mut file)?;
    Some(first == SPEECH_DOWN || first == IDLE_SPEECH_DOWN)
}

// C1 to C5 of the first frame that is found.
fn first_pattern<F: Read>(file: &mut F) -> Option<u8> {
    let mut search = FrameSync::new();
    let mut octets = [0; 40];
    for _ in 0..PERIODS {
        file.read_exact(&mut octets).ok()?;
        if let Some(Yield::Frame { bits, .. }) = &search.feed(&octets) {
            return Some(pattern(bits));
        }
    }
    None
}
