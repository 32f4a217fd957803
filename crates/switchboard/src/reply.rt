//! The reply to an order, from the table: the order's tests run one after another, and the first that fails refuses it.

ghost use Rattle.std.specs.Prelude.{◌≡◌, ◌<◌, ℕ, not, option_map, length};
ghost use Rattle.std.specs.List.{filter_map};
ghost use Rattle.call_number.specs.declared.TheConstants.{NUMBERS};
ghost use Rattle.trau_orders.specs.Lists.{NamesCalls};
ghost use Rattle.switchboard.specs.Bridges.{other};
ghost use Rattle.switchboard.specs.Replies.{refuse_if, draining, reply_from};
ghost use Rattle.switchboard.specs.Rows.{is_open_in, bridge_in, known_in, passes, span_in, rows_after};
ghost use Rattle.switchboard.specs.Stands.{InTable};

use crate::table::{Bridge, Table};
use crate::{Act, Refusal};
use trau_alaw::Law;
use trau_orders::{Order, What};

impl Table {
    /// The reply to an order; it changes nothing yet.
    pub fn reply_to(&self, order: &Order) -> Result<Act, Refusal>
        requires { NamesCalls order.now.what }
        ensures value { result ≡ reply_from (known_in self.now order.now.stamp) order.now.what }
        ensures calls { InTable result }
    {
        match order.what {
            What::OpenCall { call, law } => self.open_reply(call, law),
            What::CloseCall(call) => self.close_reply(call),
            What::Bridge(a, b) => self.bridge_reply(a, b, order.stamp),
            What::Unbridge(call) => self.unbridge_reply(call),
            What::Level(call, level) => {
                self.must_be_open(call)?;
                Ok(Act::LevelSet { call, level })
            }
            What::Dtx(call, mode) => {
                self.must_be_open(call)?;
                Ok(Act::DtxSet { call, mode })
            }
        }
    }

    /// Does what was accepted; a refused order changes nothing.
    pub fn apply(&mut self, stamp: u32, reply: &Result<Act, Refusal>)
        requires calls { InTable reply.now }
        requires spans { self.old.spans ≡ filter_map (span_in self.old) self.old.bridges }
        requires bridges { length self.old.bridges < self.old.most }
        requires room { length self.old.spans < self.old.most }
        ensures { self.new ≡ rows_after self.old stamp reply.now }
    {
        match *reply {
            Ok(Act::Opened { call, .. }) => self.open(call, stamp),
            Ok(Act::Closed { call, partner }) => {
                if partner.is_some() {
                    self.part(call, stamp);
                }
                self.close(call, stamp);
            }
            Ok(Act::Bridged { a, b }) => self.join(a, b, stamp),
            Ok(Act::Unbridged { a, .. }) => self.part(a, stamp),
            Ok(Act::LevelSet { .. }) | Ok(Act::DtxSet { .. }) | Err(_) => {}
        }
    }

    fn open_reply(&self, call: u32, law: Law) -> Result<Act, Refusal>
        requires { call < NUMBERS }
        ensures value { (t : ℕ) →
            result ≡ reply_from (known_in self.now t) (What.OpenCall call law) }
        ensures calls { InTable result }
    {
        if self.is_open(call) {
            return Err(Refusal::AlreadyOpen { call });
        }
        if self.has_ended(call) {
            return Err(Refusal::NumberUsed { call });
        }
        Ok(Act::Opened { call, law })
    }

    fn close_reply(&self, call: u32) -> Result<Act, Refusal>
        requires { call < NUMBERS }
        ensures value { (t : ℕ) → result ≡ reply_from (known_in self.now t) (What.CloseCall call) }
        ensures calls { InTable result }
    {
        self.must_be_open(call)?;
        let partner = self.bridge_of(call).map(|bridge| bridge.other(call));
        Ok(Act::Closed { call, partner })
    }

    fn bridge_reply(&self, a: u32, b: u32, stamp: u32) -> Result<Act, Refusal>
        requires a { a < NUMBERS }
        requires b { b < NUMBERS }
        ensures value { result ≡ reply_from (known_in self.now stamp) (What.Bridge a b) }
        ensures calls { InTable result }
    {
        if a == b {
            return Err(Refusal::SameCall { call: a });
        }
        self.must_be_open(a)?;
        self.must_be_open(b)?;
        self.must_be_alone(a)?;
        self.must_be_alone(b)?;
        self.must_not_drain(a, stamp)?;
        self.must_not_drain(b, stamp)?;
        Ok(Act::Bridged { a, b })
    }

    fn unbridge_reply(&self, call: u32) -> Result<Act, Refusal>
        requires { call < NUMBERS }
        ensures value { (t : ℕ) → result ≡ reply_from (known_in self.now t) (What.Unbridge call) }
        ensures calls { InTable result }
    {
        self.must_be_open(call)?;
        match self.bridge_of(call) {
            None => Err(Refusal::NotBridged { call }),
            Some(bridge) => Ok(Act::Unbridged {
                a: bridge.a,
                b: bridge.b,
            }),
        }
    }

    fn must_be_open(&self, call: u32) -> Result<(), Refusal>
        requires { call < NUMBERS }
        ensures { result ≡
            passes (refuse_if (not (is_open_in self.now call)) (Refusal.NotOpen call)) }
    {
        if self.is_open(call) {
            Ok(())
        } else {
            Err(Refusal::NotOpen { call })
        }
    }

    fn must_be_alone(&self, call: u32) -> Result<(), Refusal>
        requires { call < NUMBERS }
        ensures { result ≡ passes
            (option_map (λ x. Refusal.Bridged call (other call x)) (bridge_in self.now call)) }
    {
        match self.bridge_of(call) {
            None => Ok(()),
            Some(bridge) => Err(Refusal::Bridged {
                call,
                partner: bridge.other(call),
            }),
        }
    }

    fn must_not_drain(&self, call: u32, stamp: u32) -> Result<(), Refusal>
        requires { call < NUMBERS }
        ensures { result ≡ passes (draining (known_in self.now stamp) call) }
    {
        match self.bridge_ended(call, stamp) {
            None => Ok(()),
            Some(bridge) => Err(Refusal::Draining {
                call,
                partner: bridge.other(call),
            }),
        }
    }
}

impl Bridge {
    fn other(&self, call: u32) -> u32
        ensures { result ≡ other call self.now }
    {
        if call == self.a { self.b } else { self.a }
    }
}
