//! A law of marks and orders.

ghost use Rattle.std.specs.Prelude.{◌≡◌, ◌++◌, ℕ, List, Some};
ghost use Rattle.trau_io.specs.Desks.{DeskState};
ghost use Rattle.trau_orders.specs.declared.order.Order.{Order};
ghost use Rattle.trau_orders.specs.Text.{text_lines, AreLines, IsWithin};
ghost use Rattle.farm_checkpoint.specs.Marks.{MarkView, IsMark};
ghost use Rattle.farm_checkpoint.specs.Text.{mark_text};
ghost use Rattle.farm_orders.specs.Marked.{TellsMarked};

/// Any mark leaves room for all orders that are taken without one: the text of a mark, followed by orders within their
/// own limits, is within the limit of the whole text.
pub fn marks_leave_room()
    ensures { (mark : MarkView) (rest : List ℕ) (orders : List Order) (desk : DeskState) → IsMark mark → IsWithin rest →
        AreLines (text_lines rest) orders → desk.to_come ≡ Some (mark_text mark ++ rest) → TellsMarked mark orders desk }
{
    farm_checkpoint::laws::marks_are_short();
}
