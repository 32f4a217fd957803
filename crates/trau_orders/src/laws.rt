//! Laws: a text of orders has one answer.

ghost use Rattle.trau_orders.specs.Text.{SpellsOneList, GoodOrBad, HasOneFirst};

/// Lines spell at most one list of orders. If they spell one, none of them is bad. At most one line is the first bad
/// one.
pub fn one_answer()
    ensures orders { SpellsOneList }
    ensures good { GoodOrBad }
    ensures first { HasOneFirst }
{}
