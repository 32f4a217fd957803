//! The board: it executes the orders one after another, and callers report to it which calls have ended.

ghost use Rattle.std.specs.Prelude.{◌≡◌, ◌<◌, ◌≤◌, ◌≢◌, ◌↔◌, ℕ, [], true, false, Some, None, is_some, IsNone, IsSome, IfOk, IfSome, OnErr};
ghost use Rattle.std.specs.List.{All};
ghost use Rattle.trau_alaw.specs.declared.Law.TheVariants.{A};
ghost use Rattle.trau_orders.specs.Lists.{NamesCalls, HasLevel};
ghost use Rattle.switchboard.specs.Calls.{opened_at, is_open};
ghost use Rattle.switchboard.specs.Replies.{IsInRange};
ghost use Rattle.switchboard.specs.State.{new_board, orders_of, first_order, first_stamp, last_stamp, due, after_turn, reply_of, EndBefore, told_in, gone_in};
ghost use Rattle.switchboard.specs.State.{told_more, end_so_far, replies_from};
ghost use Rattle.switchboard.specs.Runs.{IsRun, TellsEnds, AllEnded, AllEndedAt, IsUnchanged};
ghost use Rattle.switchboard.specs.Stands.{AreRising};
ghost use Rattle.switchboard.specs.Ends.{Given, start_of, whole_end, spans_now, spans_of};
ghost use Rattle.switchboard.specs.Open.{opened_now, open_now, law_now, partner_now, open_without, partner_without};
ghost use Rattle.switchboard.specs.Open.{IfAccepted, IsExecuted, IsAsBefore};

use crate::table::Table;
use crate::{Reply, Span};
use call_number::NUMBERS;
use std::alloc::{AllocError, Global};
use std::marker::Model;
use trau_io::{CallEnd, Cause};
use trau_orders::{Order, Orders};

/// The state of a run's orders. Contracts see the remaining orders, the executed ones with their replies, and the
/// reported ends of calls.
#[derive(Drop)]
pub struct Board {
    orders: Orders,
    pub(crate) table: Table,
    // The index of the next order is the number of replies.
    replies: Vec<Reply>,
}

impl Model for Board {
    ghost use Rattle.std.specs.Prelude.{◌≡◌, ◌≤◌, length, map, drop, vec_capacity};
    ghost use Rattle.switchboard.specs.Replies.{IsInRange};
    ghost use Rattle.switchboard.specs.State.{State};
    ghost use Rattle.switchboard.specs.Stands.{IsBoard, dones, board_state};

    ghost Value = { State };

    ghost view = { λ b. board_state b.orders b.replies.items b.table };

    ghost invariant = { λ b. IsBoard b.orders b.replies.items b.table ×
        (length b.orders ≤ vec_capacity b.replies) };
}

impl Board {
    /// The board before the first order. It allocates all the memory that it will need.
    pub fn new(alloc: Global, orders: Orders) -> Result<Board, AllocError>
        ensures start { IfOk result (λ b. b ≡ new_board orders) }
        ensures untold { IfOk result (λ b. (t : ℕ) → EndBefore t b) }

        // No call was opened, none is open, none has another law than A-law, and none has a partner.
        ensures opened { IfOk result (λ b. (c : ℕ) → opened_now b c ≡ false) }
        ensures open { IfOk result (λ b. (c : ℕ) → open_now b c ≡ false) }
        ensures law { IfOk result (λ b. (c : ℕ) → law_now b c ≡ A) }
        ensures partner { IfOk result (λ b. (c : ℕ) → partner_now b c ≡ None) }
    {
        let most = orders.list().len();
        let table = Table::new(alloc, most)?;
        let replies = Vec::with_capacity(alloc, most)?;
        Ok(Board {
            orders,
            table,
            replies,
        })
    }

    fn next(&self) -> Option<Order>
        ensures value { result ≡ first_order self.now.left }
        ensures calls { IfSome result (λ o. NamesCalls o.what) }
        ensures level { IfSome result (λ o. HasLevel o.what) }
        ensures rising { AreRising self.now.left }
    {
        self.orders.list().get(self.replies.len()).copied()
    }

    /// The stamp of the next order.
    pub fn next_stamp(&self) -> Option<u32>
        ensures stamp { result ≡ first_stamp self.now.left }
        ensures none { IsNone result ↔ (self.now.left ≡ []) }
    {
        self.next().map(|order| order.stamp)
    }

    /// Executes the next order and returns the reply, if the order's stamp is this period.
    ///
    /// No remaining order may have a smaller stamp, and each reported end must lie before this period.
    pub fn turn(&mut self, period: u32) -> Option<Reply>
        requires orders { IfSome (first_stamp self.old.left) (λ s. period ≤ s) }
        requires ends { EndBefore period self.old }

        // An order that is due is executed; its reply is that of the rules.
        ensures state { self.new ≡ after_turn self.old (due self.old.left period) }
        ensures answer { result ≡ reply_of self.old (due self.old.left period) }
        ensures none { IsNone result ↔ All (λ o. o.stamp ≢ period) self.old.left }

        // A refused order changes nothing.
        ensures refused { IfSome result (λ reply.
            OnErr reply.result (IsUnchanged self.old self.new)) }

        // What an accepted order finds, and how it changes which numbers were opened, which calls are open, their
        // laws and their partners.
        ensures accepted { IfAccepted result (IsExecuted self.old self.new period) }

        // If no order is due, or it is refused, these stay.
        ensures nothing { IsNone result → self.new ≡ self.old }
        ensures stays { IfSome result (λ reply. OnErr reply.result (IsAsBefore self.old self.new)) }

        // If the ends of the calls are reported in time, all replies are those to the whole list of orders.
        ensures run { (whole : ℕ → ℕ) → IsRun whole self.old.done →
            TellsEnds whole period self.old → IsRun whole self.new.done }

        // For callers: no order is lost, no end is added, the last executed order is of this period, and what an
        // act names is in its range.
        ensures kept { orders_of self.new ≡ orders_of self.old }
        ensures told { (t : ℕ) → EndBefore t self.old → EndBefore t self.new }
        ensures last { IsSome result → last_stamp self.new.done ≡ period }
        ensures range { IfSome result (λ reply. IfOk reply.result IsInRange) }
    {
        let order = self.next()?;
        if order.stamp != period {
            return None;
        }
        Some(self.execute(&order))
    }

    fn execute(&mut self, order: &Order) -> Reply
        requires next { first_order self.old.left ≡ Some order.now }
        requires calls { NamesCalls order.now.what }
        requires level { HasLevel order.now.what }
        requires ends { EndBefore order.now.stamp self.old }
        ensures state { self.new ≡ after_turn self.old (Some order.now) }
        ensures answer { Some result ≡ reply_of self.old (Some order.now) }
        ensures range { IfOk result.result IsInRange }
        ensures accepted { IfOk result.result (IsExecuted self.old self.new order.now.stamp) }
    {
        let result = self.table.reply_to(order);
        self.table.apply(order.stamp, &result);
        let reply = Reply {
            order: self.replies.len() as u32 + 1,
            result,
        };
        self.replies.push_reserved(reply);
        reply
    }

    /// Whether a call is open after the executed orders and the reported ends.
    pub fn is_open(&self, call: u32) -> bool
        ensures { result ≡ is_open (gone_in self.now) self.now.done call }
    {
        (call as usize) < NUMBERS && self.table.is_open(call)
    }

    /// Reports to the board that an open call's lines ended it, or that the run has no further periods. The end
    /// isn't below the stamp of an executed order. Ends may be reported in any order.
    pub fn ended(&mut self, end: CallEnd)
        requires open { is_open (gone_in self.old) self.old.done end.call ≡ true }
        requires late { last_stamp self.old.done ≤ end.at }
        ensures state { self.new ≡ told_more self.old end }
        ensures told { (t : ℕ) → end.at < t → EndBefore t self.old → EndBefore t self.new }

        // The call is no longer open, and neither it nor the call that was its partner has a partner now. Laws stay.
        ensures opened { (c : ℕ) → opened_now self.new c ≡ opened_now self.old c }
        ensures open { (c : ℕ) → open_now self.new c ≡ open_without end.call (open_now self.old) c }
        ensures law { (c : ℕ) → law_now self.new c ≡ law_now self.old c }
        ensures partner { (c : ℕ) →
            partner_now self.new c ≡ partner_without end.call (partner_now self.old) c }
    {
        self.table.end_call(end);
    }

    /// The period at which a call was opened; 0 if no order has opened it.
    pub fn from(&self, call: u32) -> u32
        ensures { result ≡ start_of self.now.done call }
    {
        self.table.call(call).opened.unwrap_or(0)
    }

    /// Where and why a call has ended. None if it is open, or if no order has opened it.
    pub fn end(&self, call: u32) -> Option<CallEnd>
        ensures now { result ≡ end_so_far self.now call }

        // Once each call has ended, it is the call's end in the whole run.
        ensures whole { (given : ℕ → Given) (periods : ℕ) → AllEnded given periods self.now →
            is_some (opened_at call self.now.done) ≡ true →
            result ≡ Some (whole_end given periods self.now.done call) }
    {
        let known = self.table.call(call);
        match known.closed {
            Some(at) => Some(CallEnd {
                call,
                at,
                cause: Cause::Closed,
            }),
            None => known.gone,
        }
    }

    /// The replies so far, in the order of the orders' numbers.
    pub fn replies(&self) -> &[Reply]
        ensures { result.now ≡ replies_from 0 self.now.done }
    {
        self.replies.as_slice()
    }

    /// The spans of the bridges that have ended, in the order in which the bridges were accepted.
    pub fn spans(&self) -> &[Span]
        ensures now { result.now ≡ spans_now (told_in self.now) self.now.done }

        // Their calls have numbers below `NUMBERS`.
        ensures numbers { All (λ x. (x.a < NUMBERS) × (x.b < NUMBERS)) result.now }

        // Once each call has ended, they are the spans of the whole run.
        ensures whole { (given : ℕ → Given) (periods : ℕ) → AllEndedAt given periods self.now →
            result.now ≡ spans_of given periods self.now.done }
    {
        self.table.spans()
    }
}
