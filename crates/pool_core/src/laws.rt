//! Laws of whole lists of steps.

ghost use Rattle.std.specs.Prelude.{◌≡◌, ℕ, ◌<◌, min, List, length};
ghost use Rattle.std.proofs.Common.{get_or};
ghost use Rattle.pool_core.specs.declared.step.PoolStep.{PoolStep as OneStep};
ghost use Rattle.pool_core.specs.Machine.{pool_start, place, times_in_all};
ghost use Rattle.pool_core.specs.Steps.{after, runs};

/// After every list of steps from the start, with any number of workers but 0, each job is in exactly one deque, in
/// exactly one hand, or done; its place is its length or the sum of its runs, whichever is less.
pub fn every_list_of_steps()
    ensures once { (workers : ℕ) (lens : List ℕ) (steps : List OneStep) (job : ℕ) → 0 < workers → job < length lens →
        times_in_all job (after (pool_start workers lens) steps) ≡ 1 }
    ensures places { (workers : ℕ) (lens : List ℕ) (steps : List OneStep) (job : ℕ) → 0 < workers → job < length lens →
        place (after (pool_start workers lens) steps) job ≡ min (get_or lens job 0) (runs (pool_start workers lens) job steps) }
{}
