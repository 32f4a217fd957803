//! The ends of calls.

ghost use Rattle.std.specs.Prelude.{◌≡◌, ◌≤◌, ◌&&◌, ℕ, not, true, false, map};
ghost use Rattle.std.specs.List.{All};
ghost use Rattle.switchboard.specs.State.{last_stamp};
ghost use Rattle.switchboard.specs.Open.{open_now, partner_now};
ghost use Rattle.farm_rounds.specs.Numbers.{IsRising, is_among};
ghost use Rattle.farm_run.specs.Ending.{AreOpen, AreApart, AreLate, partner_past, limit_at, told_after, is_told};

use switchboard::Board;
use trau_io::{CallEnd, Cause};

/// Reports ends of calls to the board. The calls are open, no two ends are of one call, and no end is before the stamp
/// of an executed order.
pub(crate) fn tell_ends(board: &mut Board, ends: &[CallEnd])
    requires open { AreOpen board.old ends.now }
    requires apart { AreApart ends.now }
    requires late { AreLate board.old ends.now }
    ensures told { board.new ≡ told_after board.old ends.now }

    // These calls aren't open any more, and neither they nor those that were their partners have a partner.
    ensures open { (c : ℕ) →
        open_now board.new c ≡ (open_now board.old c && not (is_told c ends.now)) }
    ensures partner { (c : ℕ) →
        partner_now board.new c ≡ partner_past ends.now (partner_now board.old) c }
{
    switchboard::laws::bridges_join_two(board);
    for end in ends {
        board.ended(*end);
    }
}

/// Ends these calls at `at`, the end of the run: reports the ends to the board. The calls are open, and their numbers
/// rise.
pub(crate) fn end_all(board: &mut Board, calls: &[u32], at: u32)
    requires rising { IsRising calls.now }
    requires open { All (λ c. open_now board.old c ≡ true) calls.now }
    requires late { last_stamp board.old.done ≤ at }
    ensures told { board.new ≡ told_after board.old (map (limit_at at) calls.now) }

    // They aren't open any more. If they were all the open calls, no call is open.
    ensures open { (c : ℕ) →
        open_now board.new c ≡ (open_now board.old c && not (is_among calls.now c)) }
    ensures none { ((c : ℕ) → is_among calls.now c ≡ open_now board.old c) → (c : ℕ) →
        open_now board.new c ≡ false }
{
    for call in calls {
        board.ended(CallEnd {
            call: *call,
            at,
            cause: Cause::Limit,
        });
    }
}
