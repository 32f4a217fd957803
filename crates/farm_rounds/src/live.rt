//! The list of the open calls' numbers, in rising order.

ghost use Rattle.std.specs.Prelude.{◌≡◌, ◌<◌, ◌≤◌, ℕ, true, false, length, slice_index};
ghost use Rattle.farm_rounds.specs.Numbers.{IsRising, is_among};

/// Whether a number is in the list.
pub(crate) fn contains(numbers: &[u32], number: u32) -> bool
    ensures { result ≡ is_among numbers.now number }
{
    numbers.contains(&number)
}

/// The index at which to insert a number that isn't in the list.
pub(crate) fn insertion_index(numbers: &[u32], number: u32) -> usize
    requires rising { IsRising numbers.now }
    requires absent { is_among numbers.now number ≡ false }
    ensures within { result ≤ length numbers.now }
    ensures below { (k : ℕ) → k < result → slice_index numbers.now k < number }
    ensures above { (k : ℕ) → result ≤ k → k < length numbers.now →
        number < slice_index numbers.now k }
{
    match numbers.binary_search(&number) {
        // `absent` excludes `Ok`.
        Ok(index) | Err(index) => index,
    }
}

/// The index of a number that is in the list.
pub(crate) fn index_of(numbers: &[u32], number: u32) -> usize
    requires rising { IsRising numbers.now }
    requires present { is_among numbers.now number ≡ true }
    ensures within { result < length numbers.now }
    ensures number { slice_index numbers.now result ≡ number }
{
    match numbers.binary_search(&number) {
        Ok(index) => index,
        // `present` excludes this.
        Err(_) => 0,
    }
}
