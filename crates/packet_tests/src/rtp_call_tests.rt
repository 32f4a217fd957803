//! What a call records and sends, as the gateway in Python does.

ghost use Rattle.std.specs.Prelude.{◌≤◌, IfSome};
ghost use Rattle.rtp_session.specs.Outgoing.{IsMedia};
ghost use Rattle.rtp_call.specs.Call.{IsReady};

use crate::rows::assert_row;
use call_coders::Record;
use rtp_call::{Call, Datagrams, Settings};
use rtp_session::Outgoing;
use trau_alaw::Law;

// The octets of a period, as many as there is room for.
fn write_octets(octets: &mut [u8], tick: u32, first: u32)
    requires tick { tick ≤ 60 }
    requires first { first ≤ 60 }
{
    for k in 0..octets.len() {
        octets[k] = ((tick * 31 + (k % 256) as u32 * 17 + first) % 256) as u8;
    }
}

// A frame: speech, or a silence descriptor at two ticks.
fn frame_at(tick: u32) -> [u8; 33]
    requires { tick ≤ 60 }
{
    let mut frame = [0; 33];
    if tick != 30 && tick != 58 {
        write_octets(&mut frame, tick, 5);
    }
    frame[0] = 208 + frame[0] % 16;
    frame
}

// A period of the line, idle for a while.
fn line_at(tick: u32) -> [u8; 160]
    requires { tick ≤ 60 }
{
    let mut line = [255; 160];
    if tick < 12 || tick >= 25 {
        write_octets(&mut line, tick, 9);
    }
    line
}

// The sum of octets, each of which counts by its place.
fn with_octets(sum: u32, octets: &[u8]) -> u32 {
    let mut sum = sum;
    for octet in octets {
        sum = sum.wrapping_mul(31).wrapping_add(u32::from(*octet));
    }
    sum
}

fn with_record(sum: u32, record: &Record) -> u32 {
    let sum = with_octets(sum, &record.up);
    let sum = with_octets(sum, &record.pcm);
    let sum = with_octets(sum, &record.down);
    with_octets(sum, &record.out)
}

// What both sides send for a tick, unless it is lost.
fn packets(call: &mut Call, station: &mut Outgoing, exchange: &mut Outgoing, tick: u32)
    requires tick { tick ≤ 60 }
    requires call { IsReady call.old }
    requires station { IsMedia station.old.payload_type }
    requires exchange { IsMedia exchange.old.payload_type }
    ensures call { IsReady call.new }
    ensures station { IsMedia station.new.payload_type }
    ensures exchange { IsMedia exchange.new.payload_type }
{
    let mut frame = [0; 45];
    station.packet(tick, &frame_at(tick), true, &mut frame);
    if tick % 7 != 3 && (tick <= 30 || tick >= 57) {
        let _outcome = call.packet_from_station(&frame, tick, 0);
    }
    let mut line = [0; 172];
    exchange.packet(tick, &line_at(tick), true, &mut line);
    if tick % 11 != 5 {
        let _outcome = call.packet_from_exchange(&line, tick, 0);
    }
}

// The sum of all that a call records and sends in a period.
fn turn(call: &mut Call, sum: u32, tick: u32) -> u32
    requires { IsReady call.old }
    ensures { IsReady call.new }
{
    let mut recorded = Record {
        up: [0; 40],
        pcm: [0; 160],
        down: [0; 40],
        out: [0; 160],
    };
    let mut datagrams = Datagrams {
        gsm: [0; 45],
        pcm: [0; 172],
    };
    let is_sent = call.turn(tick, 256, true, &mut recorded, &mut datagrams);
    let sum = with_record(sum, &recorded);
    let sum = if is_sent {
        with_octets(sum, &datagrams.gsm)
    } else {
        sum
    };
    with_octets(sum, &datagrams.pcm)
}

// The sum of 60 periods.
fn periods(call: &mut Call, station: &mut Outgoing, exchange: &mut Outgoing) -> u32
    requires call { IsReady call.old }
    requires station { IsMedia station.old.payload_type }
    requires exchange { IsMedia exchange.old.payload_type }
    ensures call { IsReady call.new }
    ensures station { IsMedia station.new.payload_type }
    ensures exchange { IsMedia exchange.new.payload_type }
{
    let mut sum = 0;
    for tick in 0..60 {
        packets(call, station, exchange, tick);
        sum = turn(call, sum, tick);
    }
    sum
}

// The call of the test, in which no payload type is RTCP's.
fn call() -> Option<Call>
    ensures { IfSome result (λ call. IsReady call) }
{
    let random = [
        1, 2, 3, 4, 5, 6, 7, 8, 9, 10, 11, 12, 13, 14, 15, 16, 17, 18, 19, 20,
    ];
    let settings = Settings {
        number: 5,
        law: Law::Mu,
        depth: 2,
        prime: true,
        gsm: 3,
        pcm: 0,
    };
    Call::home(&settings, &random)
}

// Lost frames, comfort noise over a whole period of descriptors, a pause, lost octets.
#[test]
fn a_call(rt: HostRuntime) {
    let mut station = Outgoing::home(3, &[0, 1, 0, 0, 0, 0, 0, 0, 0, 9]);
    let mut exchange = Outgoing::home(0, &[0, 7, 0, 0, 0, 40, 0, 0, 0, 8]);
    if let Some(mut call) = call() {
        let sum = periods(&mut call, &mut station, &mut exchange);
        assert_row(&rt, 0, sum == 301900039);
    } else {
        assert_row(&rt, 1, false);
    }
}

// A payload type that RTCP on the same port seems to have.
#[test]
fn no_media(rt: HostRuntime) {
    let settings = Settings {
        number: 5,
        law: Law::A,
        depth: 2,
        prime: false,
        gsm: 72,
        pcm: 8,
    };
    assert_row(&rt, 0, Call::home(&settings, &[0; 20]).is_none());
}
