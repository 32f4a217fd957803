//! The table of calls and bridges: what the board keeps of the executed orders and the reported ends.

ghost use Rattle.std.specs.Prelude.{◌≡◌, ◌<◌, ◌≤◌, [], length, IfOk, IfSome, replicate, slice_set};
ghost use Rattle.std.specs.List.{filter_map, insert};
ghost use Rattle.switchboard.specs.Rows.{never, call_in, bridge_at_place, ended_at_place, is_open_in, has_ended_in, bridge_in, bridge_ended_in, bridge_end_in};
ghost use Rattle.switchboard.specs.Rows.{span_in, position_in, opened_in, closed_in, bridged_in, parted_in, spans_ended_in, gone_from_in, gone_in_rows, call_ended_in};
ghost use Rattle.switchboard.specs.Ends.{least, span_to};

use crate::Span;
use call_number::NUMBERS;
use std::alloc::{AllocError, Global};
use std::marker::Model;
use trau_io::CallEnd;

/// What is known of a call number.
#[derive(Clone, Copy)]
pub struct Call {
    /// The stamps of the orders that opened and closed it.
    pub opened: Option<u32>,
    pub closed: Option<u32>,
    /// Its end, if its lines or the run's end ended it.
    pub gone: Option<CallEnd>,
    /// The index of its latest bridge in the table.
    pub bridge: Option<usize>,
}

const NEVER_OPENED: Call = Call {
    opened: None,
    closed: None,
    gone: None,
    bridge: None,
};

/// An accepted bridge: its calls in the order of the order that made it, that order's stamp, and the stamp of the
/// order that ended it.
#[derive(Clone, Copy)]
pub struct Bridge {
    pub a: u32,
    pub b: u32,
    pub from: u32,
    pub ended: Option<u32>,
}

/// The calls by number, the bridges in the order in which they were accepted, and the spans of those that have ended.
#[derive(Drop)]
pub struct Table {
    calls: Vec<Call>,
    bridges: Vec<Bridge>,
    spans: Vec<Span>,
    // The room that is kept for bridges, and for spans.
    most: usize,
}

impl Model for Table {
    ghost use Rattle.std.specs.Prelude.{◌≡◌, ◌≤◌, vec_capacity};
    ghost use Rattle.switchboard.specs.Rows.{Rows, IsSized};

    ghost Value = { Rows };

    ghost view = { λ t. record {
      calls = t.calls.items;
      bridges = t.bridges.items;
      spans = t.spans.items;
      most = t.most;
    } };

    ghost invariant = { λ t. IsSized t.calls.items t.bridges.items ×
        (t.most ≤ vec_capacity t.bridges) × (t.most ≤ vec_capacity t.spans) };
}

impl Table {
    /// A table with no call opened, and with room for `most` bridges.
    pub fn new(alloc: Global, most: usize) -> Result<Table, AllocError>
        ensures { IfOk result (λ t.
            t ≡ record { calls = replicate NUMBERS never; bridges = []; spans = []; most = most }) }
    {
        Ok(Table {
            calls: vec![in alloc; NEVER_OPENED; NUMBERS]?,
            bridges: Vec::with_capacity(alloc, most)?,
            spans: Vec::with_capacity(alloc, most)?,
            most,
        })
    }

    /// The spans of the bridges that have ended.
    pub fn spans(&self) -> &[Span]
        ensures { result.now ≡ self.now.spans }
    {
        self.spans.as_slice()
    }

    // ---- reading

    /// What is known of a call number.
    pub fn call(&self, call: u32) -> Call
        ensures { result ≡ call_in self.now call }
    {
        self.calls
            .as_slice()
            .get(call as usize)
            .copied()
            .unwrap_or(NEVER_OPENED)
    }

    /// Whether a call was opened, and neither closed nor ended by its lines or the run's end.
    pub fn is_open(&self, call: u32) -> bool
        requires { call < NUMBERS }
        ensures { result ≡ is_open_in self.now call }
    {
        let call = self.calls[call as usize];
        call.opened.is_some() && call.closed.is_none() && call.gone.is_none()
    }

    /// Whether a call was opened and isn't open now.
    pub fn has_ended(&self, call: u32) -> bool
        requires { call < NUMBERS }
        ensures { result ≡ has_ended_in self.now call }
    {
        self.calls[call as usize].opened.is_some() && !self.is_open(call)
    }

    /// The bridge of a call that hasn't ended, if there is one.
    pub fn bridge_of(&self, call: u32) -> Option<Bridge>
        requires { call < NUMBERS }
        ensures value { result ≡ bridge_in self.now call }
        ensures calls { IfSome result (λ x. (x.a < NUMBERS) × (x.b < NUMBERS)) }
    {
        let bridge = self.bridge_at(self.place_of(call)?);
        if bridge.ended.is_none() && self.is_open(bridge.a) && self.is_open(bridge.b) {
            Some(bridge)
        } else {
            None
        }
    }

    /// The latest bridge of a call, if an order with this stamp ended it.
    pub fn bridge_ended(&self, call: u32, stamp: u32) -> Option<Bridge>
        requires { call < NUMBERS }
        ensures { result ≡ bridge_ended_in self.now stamp call }
    {
        let bridge = self.bridge_at(self.place_of(call)?);
        if bridge.ended == Some(stamp) {
            Some(bridge)
        } else {
            None
        }
    }

    // The first period after a bridge, if it has ended.
    fn end_of(&self, bridge: &Bridge) -> Option<u32>
        requires a { bridge.now.a < NUMBERS }
        requires b { bridge.now.b < NUMBERS }
        ensures { result ≡ bridge_end_in self.now bridge.now }
    {
        let calls = least(self.gone_from(bridge.a), self.gone_from(bridge.b));
        least(bridge.ended, calls)
    }

    // The first period after a call, if its lines or the run's end ended it.
    fn gone_from(&self, call: u32) -> Option<u32>
        requires { call < NUMBERS }
        ensures { result ≡ gone_from_in self.now call }
    {
        self.calls[call as usize].gone.map(|end| end.at)
    }

    // The number of bridges before index `place` that have ended, which is the index of its span.
    fn position(&self, place: usize) -> usize
        requires { place ≤ length self.now.bridges }
        ensures { result ≡ position_in self.now place }
    {
        let mut over = 0;
        for bridge in &self.bridges[..place] {
            if self.end_of(bridge).is_some() {
                over += 1;
            }
        }
        over
    }

    // The index of a call's latest bridge.
    fn place_of(&self, call: u32) -> Option<usize>
        requires { call < NUMBERS }
        ensures value { result ≡ (call_in self.now call).bridge }
        ensures place { IfSome result (λ k. k < length self.now.bridges) }
    {
        self.calls[call as usize].bridge
    }

    fn bridge_at(&self, place: usize) -> Bridge
        requires { place < length self.now.bridges }
        ensures value { result ≡ bridge_at_place self.now place }
        ensures a { result.a < NUMBERS }
        ensures b { result.b < NUMBERS }
    {
        self.bridges[place]
    }

    // ---- writing

    /// Marks a call as opened by an order.
    pub fn open(&mut self, call: u32, stamp: u32)
        requires { call < NUMBERS }
        ensures { self.new ≡ opened_in self.old stamp call }
    {
        self.calls[call as usize].opened = Some(stamp);
    }

    /// Marks a call as closed by an order.
    pub fn close(&mut self, call: u32, stamp: u32)
        requires { call < NUMBERS }
        ensures { self.new ≡ closed_in self.old stamp call }
    {
        self.calls[call as usize].closed = Some(stamp);
    }

    /// Adds a bridge of two calls, made by an order.
    pub fn join(&mut self, a: u32, b: u32, stamp: u32)
        requires a { a < NUMBERS }
        requires b { b < NUMBERS }
        requires room { length self.old.bridges < self.old.most }
        ensures { self.new ≡ bridged_in self.old stamp a b }
    {
        let place = self.bridges.len();
        self.calls[a as usize].bridge = Some(place);
        self.calls[b as usize].bridge = Some(place);
        self.bridges.push_reserved(Bridge {
            a,
            b,
            from: stamp,
            ended: None,
        });
    }

    /// Ends the latest bridge of a call by an order. The bridge lasted until now.
    pub fn part(&mut self, call: u32, stamp: u32)
        requires call { call < NUMBERS }
        requires spans { self.old.spans ≡ filter_map (span_in self.old) self.old.bridges }
        requires room { length self.old.spans < self.old.most }
        ensures { self.new ≡ parted_in self.old stamp call }
    {
        let Some(place) = self.place_of(call) else {
            return;
        };
        let bridge = self.bridge_at(place);
        let position = self.position(place);
        self.set_ended(place, stamp);
        self.add_span(position, span_to(&bridge, stamp));
    }

    /// Marks a call as ended by its lines or by the run's end. Its latest bridge ends with it; if that bridge has a
    /// later end, this one replaces it.
    pub fn end_call(&mut self, end: CallEnd)
        requires call { end.call < NUMBERS }
        requires spans { self.old.spans ≡ filter_map (span_in self.old) self.old.bridges }
        requires few { length self.old.bridges ≤ self.old.most }
        ensures { self.new ≡ call_ended_in self.old end }
    {
        self.end_span(end.call, end.at);
        self.mark_gone(end);
    }

    fn end_span(&mut self, call: u32, at: u32)
        requires call { call < NUMBERS }
        requires spans { self.old.spans ≡ filter_map (span_in self.old) self.old.bridges }
        requires few { length self.old.bridges ≤ self.old.most }
        ensures { self.new ≡ spans_ended_in self.old at call }
    {
        let Some(place) = self.place_of(call) else {
            return;
        };
        let bridge = self.bridge_at(place);
        let position = self.position(place);
        let Some(end) = self.end_of(&bridge) else {
            self.add_span(position, span_to(&bridge, at));
            return;
        };
        if at < end {
            self.move_span(position, span_to(&bridge, at));
        }
    }

    fn mark_gone(&mut self, end: CallEnd)
        requires { end.call < NUMBERS }
        ensures { self.new ≡ gone_in_rows self.old end }
    {
        self.calls[end.call as usize].gone = Some(end);
    }

    fn set_ended(&mut self, place: usize, stamp: u32)
        requires { place < length self.old.bridges }
        ensures { self.new ≡ ended_at_place self.old stamp place }
    {
        self.bridges[place].ended = Some(stamp);
    }

    fn add_span(&mut self, position: usize, span: Span)
        requires place { position ≤ length self.old.spans }
        requires room { length self.old.spans < self.old.most }
        ensures { self.new ≡ record self.old { spans = insert self.old.spans position span } }
    {
        self.spans.insert(position, span).unwrap();
    }

    fn move_span(&mut self, position: usize, span: Span)
        requires { position < length self.old.spans }
        ensures { self.new ≡ record self.old { spans = slice_set self.old.spans position span } }
    {
        self.spans[position] = span;
    }
}

// The lesser of those that exist.
fn least(one: Option<u32>, other: Option<u32>) -> Option<u32>
    ensures { result ≡ least one other }
{
    match (one, other) {
        (None, other) => other,
        (Some(one), None) => Some(one),
        (Some(one), Some(other)) => Some(one.min(other)),
    }
}

fn span_to(bridge: &Bridge, to: u32) -> Span
    ensures { result ≡ span_to bridge.now to }
{
    Span {
        a: bridge.a,
        b: bridge.b,
        from: bridge.from,
        to,
    }
}
