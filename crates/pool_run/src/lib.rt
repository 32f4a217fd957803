//! A pool of jobs: workers that steal from one another run each job of a round to its end, in slices.
//!
//! Layer: The report, the pool, the jobs of a round.
//!
//! A round's jobs come in as a list, run without touching anything outside, and go out finished, in the same order.
//! The pool doesn't know what a job does: `work` has the trait of a job, with the ghost functions that make
//! "finished" exact. The crates above make a job for each call of a round, with its octets, and run it in two
//! phases, with a pool for each.
//!
//! Each worker has a deque. At most as many workers run as there are jobs. One of them runs in the caller's thread,
//! each other one in a thread of its own. At the start, job i is in the deque of worker i modulo the number of
//! workers. A worker takes the front job of its own deque, or else of another's, beginning with its neighbour's. It
//! runs one slice of the job and, unless that finishes it, puts it at the back of its own deque. A worker ends when
//! it has no job in hand and has found every deque empty. When all have ended, the caller looks through the deques
//! once more and runs what it finds.
//!
//! - `deque`: the rule of one deque, which holds whoever takes from it, and the operations that keep it.
//! - `member`: one worker.
//! - `room`: the memory of a pool, reserved before its jobs are known.
//! - `joins`: joining what the workers know of the deques, when they have ended.
//! - `answer`: the remaining jobs, and the order of the answer.
//! - `pool`: the run.
//!
//! The contract says what each job becomes, not who runs its slices or when. So a pool with one thread, or one that
//! never steals, would meet it too. Only tests (as `jobs_are_stolen_half_done` of `farm_tests`) show that workers run
//! at the same time and steal half-done jobs: their gates hold slices back until others were run. It isn't proved that
//! a worker ends: it goes on for as long as it finds jobs (`Wait`). Jobs, places and slices are this project's own.
//!
//! Definitions: `specs/Deque.antt` (the rule of one deque), `specs/Member.antt` (what a worker's steps keep),
//! `specs/Pool.antt` (the workers together), `specs/Room.antt` (the room of a pool), `specs/Joins.antt` (the joins of
//! the passes). `work` says what a job is to a pool. `call_pair` has the job of a call, `farm_rounds` runs the pools.
#![tactic(auto)]

mod answer;
pub mod deque;
mod joins;
mod member;
mod pool;
mod room;
mod work;

pub use pool::run_pool;
pub use room::PoolRoom;
pub use work::{Gate, OpenGate, Work};
