//! Laws of a run, each the contract of a function that does nothing. They lead from what is known while a run goes on
//! to what the whole run gives.

ghost use Rattle.std.specs.Prelude.{◌≡◌, ◌≤◌, ◌<◌, ◌+◌, ◌-◌, ℕ, Some, is_some, List, [], ◌∷◌, ◌++◌};
ghost use Rattle.trau_orders.specs.declared.order.Order.{Order};
ghost use Rattle.trau_orders.specs.Lists.{AreOrders};
ghost use Rattle.switchboard.specs.Calls.{Done, opened_at};
ghost use Rattle.switchboard.specs.Runs.{IsRun};
ghost use Rattle.switchboard.specs.Ends.{start_of};
ghost use Rattle.call_leg.specs.Settings.{settings_later, period_with};
ghost use Rattle.run_spec.specs.Run.{Run, whole_in, up_in, pcm_in, period_of, periods_to};
ghost use Rattle.farm_checkpoint.specs.Marks.{IsMark};
ghost use Rattle.run_spec.specs.Mark.{Joins, mark_of};
ghost use Rattle.run_spec.specs.Now.{IsSoFar, NoOrderTo, handed_now, period_now, settings_now, settings_in, changed_by};

/// Period u of an open call is final after the orders up to it were executed: no later order and no end changes it.
pub fn periods_are_settled()
    ensures period { (r : Run) (t u : ℕ) (ds : List Done) (left : List Order) (c s : ℕ) → IsSoFar r t ds left →
        t ≤ u → u < r.periods → NoOrderTo u left → opened_at c ds ≡ Some s → period_of r c (u - s) ≡ period_now r ds u c }
    ensures more { (r : Run) (t u : ℕ) (ds : List Done) (left : List Order) (c s : ℕ) → IsSoFar r t ds left →
        t ≤ u → u < r.periods → NoOrderTo u left → opened_at c ds ≡ Some s →
        periods_to r c (u + 1 - s) ≡ period_now r ds u c ∷ periods_to r c (u - s) }

    // The period has these settings, and something is handed over in it exactly if they say that the call is bridged.
    ensures settings { (r : Run) (ds : List Done) (u c : ℕ) →
        period_now r ds u c ≡ period_with (settings_in r ds u c) (up_in r c (u - start_of ds c)) (pcm_in r c (u - start_of ds c)) (handed_now r ds u c) }
    ensures handed { (r : Run) (t u : ℕ) (ds : List Done) (left : List Order) (c : ℕ) → IsSoFar r t ds left → t ≤ u →
        is_some (handed_now r ds u c) ≡ (settings_in r ds u c).bridged }
{}

/// The settings of a call: each order changes them as its act says. After a period they are the settings of this
/// period, except that no bridge starts.
pub fn settings_follow()
    ensures order { (r : Run) (t : ℕ) (ds : List Done) (d : Done) (left : List Order) (c : ℕ) → IsSoFar r t ds (d.order ∷ left) →
        d.order.stamp ≡ t → IsRun (whole_in r) (ds ++ d ∷ []) → settings_now r (ds ++ d ∷ []) t c ≡ changed_by c d.result (settings_now r ds t c) }
    ensures period { (r : Run) (t u : ℕ) (ds : List Done) (left : List Order) (c : ℕ) → IsSoFar r t ds left →
        t ≤ u → u < r.periods → settings_now r ds (u + 1) c ≡ settings_later (settings_in r ds u c) }
{}

/// A run writes what it writes up to an earlier period, followed by the octets of the later periods.
pub fn a_run_is_joined_of_two()
    ensures { (r : Run) (p : ℕ) → AreOrders r.orders → p ≤ r.periods → Joins r p }
{}

/// The mark of a run of 1 to 4,294,967,295 periods is a mark: its calls began before its period, their numbers rise,
/// and its sums have 32 bits.
pub fn marks_of_runs_are_marks()
    ensures { (r : Run) → 1 ≤ r.periods → r.periods ≤ 4294967295 → IsMark (mark_of r) }
{}
