//! The pool machine with two workers, one of which steals a job.

ghost use Rattle.std.specs.Prelude.{◌≡◌, ◌<◌, length};

use crate::rows::{assert_row, assert_rows};
use pool_core::{NotLegal, Pool, PoolStep};
use std::process::Abort;

// The steps until the first job has two of its periods, and whether each is legal ..
static FIRST_STEPS: [(PoolStep, bool); 2] = [
    (PoolStep::Pop { worker: 0 }, true),
    (
        PoolStep::Run {
            worker: 0,
            periods: 2,
        },
        true,
    ),
];

// .. and the steps after that.
static STEPS: [(PoolStep, bool); 8] = [
    (PoolStep::Push { worker: 0 }, true),
    (PoolStep::Pop { worker: 1 }, true),
    (
        PoolStep::Run {
            worker: 1,
            periods: 5,
        },
        true,
    ),
    (PoolStep::Finish { worker: 1 }, true),
    (
        PoolStep::Steal {
            thief: 1,
            victim: 0,
        },
        true,
    ),
    (
        PoolStep::Run {
            worker: 1,
            periods: 1,
        },
        true,
    ),
    (PoolStep::Push { worker: 1 }, false),
    (PoolStep::Finish { worker: 1 }, true),
];

// Whether a step comes before all jobs are done, and is legal or not as expected.
fn is_step(pool: &mut Pool, step: PoolStep, legal: bool) -> bool
    ensures { pool.new.lens ≡ pool.old.lens }
{
    let early = !pool.all_done();
    let answer = if legal {
        Ok(())
    } else {
        Err(NotLegal { step })
    };
    pool.step(step) == answer && early
}

// How many steps hold before the first that doesn't.
fn stepped(pool: &mut Pool, steps: &[(PoolStep, bool)]) -> usize
    ensures { pool.new.lens ≡ pool.old.lens }
{
    let mut stepped = 0usize;
    for (step, legal) in steps {
        if !is_step(pool, *step, *legal) {
            return stepped;
        }
        stepped = stepped.saturating_add(1);
    }
    stepped
}

// Asserts that all steps hold, the place of the first job between them, and that all jobs are done in the end.
fn assert_stolen(rt: &impl Abort, pool: &mut Pool)
    requires { 0 < length pool.old.lens }
{
    assert_rows(rt, stepped(pool, &FIRST_STEPS), 2);
    assert_rows(rt, pool.place(0) as usize, 2);
    assert_rows(rt, stepped(pool, &STEPS), 8);
    assert_row(rt, 8, pool.all_done());
}

// Two workers, and jobs of 3 periods and of 1. The first job is stolen with one period left.
#[test]
fn a_job_is_stolen(rt: HostRuntime) {
    let mut pool = Pool::new(rt.alloc(), 2, &[3, 1]).expect(&rt, "memory");
    assert_stolen(&rt, &mut pool);
}
