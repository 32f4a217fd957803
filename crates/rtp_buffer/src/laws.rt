//! What the rules of the pace mean, each the contract of a function.

ghost use Rattle.std.specs.Prelude.{◌≡◌, ◌<◌, ◌≤◌, ◌+◌, ◌⊎◌, ◌^◌, ℕ, List, length, take, sum, min, true, false};
ghost use Rattle.rtp_buffer.specs.declared.pace.Pace.{Pace};
ghost use Rattle.rtp_buffer.specs.declared.pace.Owed.TheVariants.{Nothing, On, Back};
ghost use Rattle.rtp_buffer.specs.declared.pace.Wish.TheVariants.{IfSoft, Now};
ghost use Rattle.rtp_buffer.specs.Watch.{on, back, most_told, place_of_rank, least_of, is_long};
ghost use Rattle.rtp_buffer.specs.Pace.{wait_of, is_late, rest, median, pace_home, followed, reviewed, wish_in, slipped};

/// A stream's first period waits `depth` ticks, and so does a packet that the playing follows.
pub fn depth_is_waited()
    ensures first { (depth tick : ℕ) → depth < 2 ^ 32 → tick < 2 ^ 32 → wait_of (pace_home depth tick) 0 tick ≡ depth }
    ensures followed { (pace : Pace) (period tick : ℕ) → period < 2 ^ 32 → tick < 2 ^ 32 → pace.shift < 2 ^ 32 → pace.depth < 2 ^ 32 →
        is_late (wait_of pace period tick) ≡ true → pace.was_late ≡ true →
        wait_of (followed pace (wait_of pace period tick) tick) period tick ≡ pace.depth }
{}

/// After a slip each period is played a tick earlier, or later.
pub fn slips_move_by_one()
    ensures on { (pace : Pace) (count tick : ℕ) → pace.owed ≡ On count → (slipped pace tick).shift ≡ on pace.shift 1 }
    ensures back { (pace : Pace) (count tick : ℕ) → pace.owed ≡ Back count → (slipped pace tick).shift ≡ back pace.shift 1 }
{}

/// The slips on that are owed are as many as all packets but a hundredth part waited longer than the depth. One slip
/// back is owed only if more than a hundredth part came late, or just in time where there is a depth, and none waited
/// long.
pub fn depth_comes_back()
    ensures on { (pace : Pace) (tick count : ℕ) → pace.owed ≡ Nothing → (reviewed pace tick).owed ≡ On count →
        least_of pace.watch ≡ most_told + pace.depth + count }
    ensures back { (pace : Pace) (tick : ℕ) → pace.owed ≡ Nothing → (reviewed pace tick).owed ≡ Back 1 →
        (least_of pace.watch < most_told + min pace.depth 1) × (is_long pace.watch.waits ≡ false) }
{}

/// The packet of a rank is where so many are before it, and not more.
pub fn one_in_a_hundred()
    ensures before { (counts : List ℕ) (rank : ℕ) → sum (take (place_of_rank counts rank) counts) ≤ rank }
    ensures within { (counts : List ℕ) (rank : ℕ) → place_of_rank counts rank < length counts → rank < sum (take (place_of_rank counts rank + 1) counts) }
{}

/// After as many slips back as the middle one of three bursts is late, two of the three would have been in time, and
/// after fewer not.
pub fn most_bursts_are_in_time()
    ensures enough { (a b c : ℕ) → ((a ≤ median a b c) × (b ≤ median a b c)) ⊎ ((a ≤ median a b c) × (c ≤ median a b c)) ⊎ ((b ≤ median a b c) × (c ≤ median a b c)) }
    ensures least { (a b c : ℕ) → ((median a b c ≤ a) × (median a b c ≤ b)) ⊎ ((median a b c ≤ a) × (median a b c ≤ c)) ⊎ ((median a b c ≤ b) × (median a b c ≤ c)) }
{}

/// In speech a slip is made at the earliest 10 ticks after the one before, and one that needs no soft speech only once
/// patience has ended.
pub fn slips_rest_in_speech()
    ensures now { (ago left : ℕ) → wish_in true ago left ≡ Now → (rest ≤ ago) × (left ≡ 0) }
    ensures soft { (ago left : ℕ) → wish_in true ago left ≡ IfSoft → rest ≤ ago }
{}
