//! The pool machine: jobs in the deques and hands of workers that steal from one another.
//!
//! Layer: The report, the pool, the jobs of a round.
//!
//! Pure, without threads: it defines which steps workers may take to share a round's jobs, one step at a time, and
//! where the jobs are after them, whatever their order. A job has a length in periods, and a place, the number of
//! its periods that are done. It is in the deque of one worker, in the hand of one worker, or done.
//!
//! No running code uses this machine, only tests do (`line_tests`). The pool that runs is `pool_run`; that it takes
//! these steps isn't proved.
//!
//! The machine is this project's own. Definitions: `specs/Machine.antt` (the state, the legal steps and what they do),
//! `specs/Steps.antt` (whole lists of steps), `specs/Waiting.antt` (the deques as the code keeps them).
#![tactic(auto)]

mod laws;
mod pool;
mod step;

pub use laws::every_list_of_steps;
pub use pool::Pool;
pub use step::{NotLegal, PoolStep};
