//! Laws of marks' texts. Each is the contract of a function that does nothing.

ghost use Rattle.std.specs.Prelude.{◌≤◌, length};
ghost use Rattle.farm_checkpoint.specs.Marks.{MarkView, IsMark};
ghost use Rattle.farm_checkpoint.specs.Text.{mark_text, HasOneMark, NotGoodAndBad, HasOneFirst};

/// A text begins with at most one mark. If it begins with one, it has no first bad line. It has at most one first bad
/// line.
pub fn one_answer()
    ensures mark { HasOneMark }
    ensures good { NotGoodAndBad }
    ensures first { HasOneFirst }
{}

/// The text of a mark has at most 233,495 octets: a first line of 16, 4,096 lines of 57 for calls, and a last line of
/// 7.
pub fn marks_are_short()
    ensures { (mark : MarkView) → IsMark mark → length (mark_text mark) ≤ 233495 }
{}
