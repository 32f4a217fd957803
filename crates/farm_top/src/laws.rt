//! Laws of runs, each the contract of a function that does nothing.

ghost use Rattle.std.specs.Prelude.{◌≡◌, ◌≤◌, ◌++◌, ℕ, Bool, List, Some};
ghost use Rattle.trau_io.specs.declared.line.Side.{Side};
ghost use Rattle.trau_io.specs.Desks.{DeskState};
ghost use Rattle.trau_io.specs.Lines.{LineState};
ghost use Rattle.trau_orders.specs.declared.order.Order.{Order};
ghost use Rattle.trau_orders.specs.Lists.{AreOrders};
ghost use Rattle.trau_orders.specs.Text.{text_lines, AreLines, IsWithin};
ghost use Rattle.farm_checkpoint.specs.Text.{mark_text};
ghost use Rattle.farm_orders.specs.Marked.{TellsMarked};
ghost use Rattle.run_spec.specs.Run.{Run};
ghost use Rattle.run_spec.specs.Mark.{mark_of};
ghost use Rattle.farm_run.specs.Resuming.{LeavesFrom};
ghost use Rattle.farm_run.specs.Runs.{Leaves};
ghost use Rattle.farm_top.specs.Headline.{Headline, HeadlineFrom};

/// The mark of a run, as `save` prints it, followed by the text of orders within their limits, is a mark with orders
/// that `resume` accepts.
pub fn a_saved_mark_is_taken()
    ensures { (r : Run) (rest : List ℕ) (orders : List Order) (desk : DeskState) → 1 ≤ r.periods → r.periods ≤ 4294967295 →
        IsWithin rest → AreLines (text_lines rest) orders → desk.to_come ≡ Some (mark_text (mark_of r) ++ rest) → TellsMarked (mark_of r) orders desk }
{
    run_spec::laws::marks_of_runs_are_marks();
    farm_orders::laws::marks_leave_room();
}

/// What a run leaves on outgoing lines are the lines of whole calls, or the later octets of these, and its bridges hand
/// over frames.
pub(crate) fn lines_have_the_headline()
    ensures whole { (r : Run) (fails : ℕ → Side → Bool) (before now : ℕ → Side → LineState) → AreOrders r.orders →
        Leaves r fails before now → Headline r fails before now }
    ensures later { (r : Run) (from : ℕ) (fails : ℕ → Side → Bool) (before now : ℕ → Side → LineState) → AreOrders r.orders →
        LeavesFrom r from fails before now → HeadlineFrom r from fails before now }
{
    run_calls_spec::laws::lines_are_of_whole_calls();
    run_calls_spec::laws::items_are_the_partners_frames();
    run_calls_spec::laws::items_go_out_in_order_and_once();
}
