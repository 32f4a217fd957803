//! How two lists of calls differ.

ghost use Rattle.std.specs.Prelude.{◌≡◌, ◌≢◌, ◌≤◌, ◌<◌, ◌↔◌, length, take, IsNone, IfSome};
ghost use Rattle.farm_checkpoint.specs.Marks.{NumbersRise};
ghost use Rattle.farm_checkpoint.specs.Differences.{IsLeastDifference, DifferAt};

use crate::MarkCall;

// The length of the lists' longest common prefix.
fn count_common(one: &[MarkCall], other: &[MarkCall]) -> usize
    ensures within { (result ≤ length one.now) × (result ≤ length other.now) }
    ensures same { take result one.now ≡ take result other.now }
    ensures differ { result < length one.now → result < length other.now → DifferAt one.now other.now result }
{
    let mut common = 0;
    while common < one.len() && common < other.len() && one[common] == other[common] {
        common += 1;
    }
    common
}

/// The least call number whose entries differ, or that only one of the lists has.
pub(crate) fn first_difference(one: &[MarkCall], other: &[MarkCall]) -> Option<u32>
    requires one_rises { NumbersRise one.now }
    requires other_rises { NumbersRise other.now }
    ensures none { IsNone result ↔ (one.now ≡ other.now) }
    ensures some { IfSome result (λ call. IsLeastDifference one.now other.now call) }
{
    let common = count_common(one, other);
    match (one.get(common), other.get(common)) {
        (None, None) => None,
        (Some(entry), None) => Some(entry.call),
        (None, Some(others)) => Some(others.call),
        (Some(entry), Some(others)) => Some(entry.call.min(others.call)),
    }
}
