//! Laws of yields, each the contract of a function that does nothing. Lists of periods have the oldest first here.

ghost use Rattle.std.specs.Prelude.{◌≡◌, ℕ, ◌<◌, List, [], ◌∷◌, ◌++◌, length, reverse, filter, option_to_list};
ghost use Rattle.frame_sync.specs.declared.yields.Yield.{Yield};
ghost use Rattle.frame_sync.specs.Yields.{Yields};
ghost use Rattle.frame_sync.specs.Periods.{ArePeriods, all_bits, all_yields, yield_in, yield_of, ends_in};

/// The yields of the periods of a line, one after another, are the yields of all its bits.
pub fn periods_give_all_yields()
    ensures { (periods : List (List ℕ)) → ArePeriods periods →
        Yields (all_bits periods) (all_yields periods) }
{}

/// Each list of bits has a list of yields. By `one_list` it is the only one.
pub fn some_list()
    ensures { (bits : List ℕ) → (ys : List Yield) × Yields bits ys }
{}

/// Each list of bits has at most one list of yields. By `some_list` it has one.
pub fn one_list()
    ensures { (bits : List ℕ) (ys zs : List Yield) → Yields bits ys → Yields bits zs → ys ≡ zs }
{}

/// The yield of a period is the one of all yields of the line that ends in the period, or none if none does.
pub fn each_in_its_period()
    ensures { (periods : List (List ℕ)) (k : ℕ) → k < length periods →
        filter (ends_in k) (all_yields periods) ≡ option_to_list (yield_in periods k) }
{}

/// The yield of an appended period is that of the newest period, with the other periods as its past.
pub fn one_period_more()
    ensures { (periods : List (List ℕ)) (octets : List ℕ) →
        yield_in (periods ++ octets ∷ []) (length periods) ≡ yield_of octets (reverse periods) }
{}
