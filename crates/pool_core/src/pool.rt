//! The pool: a state of the machine.

ghost use Rattle.std.specs.Prelude.{◌≡◌, ◌↔◌, ℕ, ◌<◌, ◌≤◌, min, true, None, List, ◌∷◌, [], ◌++◌, length, replicate, IfOk, IfSome, IsNone, IsTrue, OnErr};
ghost use Rattle.std.specs.Prelude.{vec_capacity};
ghost use Rattle.std.specs.List.{Contains};
ghost use Rattle.std.proofs.Common.{get_or};
ghost use Rattle.pool_core.specs.declared.step.PoolStep.{PoolStep as OneStep};
ghost use Rattle.pool_core.specs.declared.pool.Waiting.{Waiting as OneWaiting};
ghost use Rattle.pool_core.specs.Machine.{pool_start, dealt, place, deque, hand, is_worker, can_take, is_under_way, is_complete, is_legal, TakesJob, taken};
ghost use Rattle.pool_core.specs.Machine.{run, pushed, completed, moved, stepped, answer_of, all_done};
ghost use Rattle.pool_core.specs.Steps.{after, runs};
ghost use Rattle.pool_core.specs.Waiting.{jobs_of, IsFront};

use crate::{NotLegal, PoolStep};
use std::alloc::{AllocError, Global};
use std::marker::Model;

/// A job in a worker's deque.
#[derive(Clone, Copy)]
pub struct Waiting {
    pub job: u32,
    pub worker: u32,
}

/// Jobs in deques and hands. Contracts see each worker's deque as a list, the front first.
#[derive(Drop)]
pub struct Pool {
    lens: Vec<u32>,
    places: Vec<u32>,
    // The jobs of all deques, those of each deque in its order. So no deque grows, and a step takes no memory.
    waiting: Vec<Waiting>,
    hands: Vec<Option<u32>>,
    finished: Vec<u32>,
}

impl Model for Pool {
    ghost use Rattle.std.specs.Prelude.{◌≤◌, length, vec_capacity};
    ghost use Rattle.pool_core.specs.Machine.{PoolState};
    ghost use Rattle.pool_core.specs.Waiting.{IsPool, pool_state};

    ghost Value = { PoolState };

    ghost view = { λ p. pool_state p.lens.items p.places.items p.waiting.items p.hands.items p.finished.items };

    ghost invariant = { λ p. IsPool p.lens.items p.places.items p.waiting.items p.hands.items p.finished.items
        × (length p.lens.items ≤ vec_capacity p.waiting) × (length p.lens.items ≤ vec_capacity p.finished) };
}

impl Pool {
    /// The pool at the start, for 1 to 64 workers and at most 4,096 jobs with these lengths in periods. Job i is at
    /// place 0, in the deque of worker i modulo the number of workers; the jobs of a deque are in rising order. A
    /// step takes no memory.
    pub fn new(alloc: Global, workers: u32, lens: &[u32]) -> Result<Pool, AllocError>
        requires some { 0 < workers }
        requires few { workers ≤ 64 }
        requires jobs { length lens.now ≤ 4096 }
        ensures { IfOk result (λ p. p ≡ pool_start workers lens.now) }
    {
        let jobs = lens.len();
        Ok(Pool {
            lens: lens.to_vec(alloc)?,
            places: vec![in alloc; 0; jobs]?,
            waiting: deal(alloc, workers, jobs as u32)?,
            hands: empty_hands(alloc, workers)?,
            finished: Vec::with_capacity(alloc, jobs)?,
        })
    }

    /// Takes a step. A step that isn't legal changes nothing.
    pub fn step(&mut self, step: PoolStep) -> Result<(), NotLegal>
        ensures answer { result ≡ answer_of self.old step }
        ensures state { self.new ≡ stepped self.old step }
        ensures refused { OnErr result (self.new ≡ self.old) }
        ensures jobs { self.new.lens ≡ self.old.lens }

        // From the start, whatever steps came before.
        ensures steps { (workers : ℕ) (lens : List ℕ) (steps : List OneStep) → self.old ≡ after (pool_start workers lens) steps →
            self.new ≡ after (pool_start workers lens) (steps ++ step ∷ []) }
    {
        if !self.is_legal(step) {
            return Err(NotLegal { step });
        }
        self.make(step);
        Ok(())
    }

    /// Whether all jobs are done.
    pub fn all_done(&self) -> bool
        ensures count { result ≡ all_done self.now }
        ensures each { IsTrue result ↔ ((job : ℕ) → job < length self.now.lens → Contains self.now.finished job) }
    {
        self.finished.len() == self.lens.len()
    }

    /// The place of a job.
    pub fn place(&self, job: u32) -> u32
        requires { job < length self.now.lens }
        ensures value { result ≡ place self.now job }

        // From the start: its length or the sum of its runs, whichever is less.
        ensures runs { (workers : ℕ) (lens : List ℕ) (steps : List OneStep) → 0 < workers → self.now ≡ after (pool_start workers lens) steps →
            result ≡ min (get_or lens job 0) (runs (pool_start workers lens) job steps) }
    {
        self.places[job as usize]
    }

    fn is_legal(&self, step: PoolStep) -> bool
        ensures { result ≡ is_legal self.now step }
    {
        match step {
            PoolStep::Pop { worker } => self.is_worker(worker) && self.can_take(worker, worker),
            PoolStep::Steal { thief, victim } => {
                self.is_worker(thief)
                    && self.is_worker(victim)
                    && thief != victim
                    && self.can_take(thief, victim)
            }
            PoolStep::Run { worker, periods } => {
                self.is_worker(worker) && self.is_under_way(worker) && 0 < periods
            }
            PoolStep::Push { worker } => self.is_worker(worker) && self.is_under_way(worker),
            PoolStep::Finish { worker } => self.is_worker(worker) && self.is_complete(worker),
        }
    }

    fn is_worker(&self, worker: u32) -> bool
        ensures { result ≡ is_worker self.now worker }
    {
        (worker as usize) < self.hands.len()
    }

    fn can_take(&self, worker: u32, victim: u32) -> bool
        requires worker { worker < length self.now.hands }
        requires victim { victim < length self.now.hands }
        ensures { result ≡ can_take self.now worker victim }
    {
        self.hands[worker as usize].is_none() && front(&self.waiting, victim).is_some()
    }

    fn is_under_way(&self, worker: u32) -> bool
        requires { worker < length self.now.hands }
        ensures { result ≡ is_under_way self.now (hand self.now worker) }
    {
        match self.hands[worker as usize] {
            None => false,
            Some(job) => self.places[job as usize] < self.lens[job as usize],
        }
    }

    fn is_complete(&self, worker: u32) -> bool
        requires { worker < length self.now.hands }
        ensures { result ≡ is_complete self.now (hand self.now worker) }
    {
        match self.hands[worker as usize] {
            None => false,
            Some(job) => self.places[job as usize] == self.lens[job as usize],
        }
    }

    fn make(&mut self, step: PoolStep)
        requires { is_legal self.old step ≡ true }
        ensures { self.new ≡ moved self.old step }
    {
        match step {
            PoolStep::Pop { worker } => self.take(worker, worker),
            PoolStep::Steal { thief, victim } => self.take(thief, victim),
            PoolStep::Run { worker, periods } => self.run(worker, periods),
            PoolStep::Push { worker } => self.push(worker),
            PoolStep::Finish { worker } => self.finish(worker),
        }
    }

    fn take(&mut self, worker: u32, victim: u32)
        requires { TakesJob self.old worker victim }
        ensures { self.new ≡ taken self.old worker victim (deque self.old victim) }
    {
        let Some(place) = front(&self.waiting, victim) else {
            return;
        };
        let front = self.waiting.remove(place);
        self.hands[worker as usize] = Some(front.job);
    }

    fn run(&mut self, worker: u32, periods: u32)
        requires { worker < length self.old.hands }
        ensures { self.new ≡ run self.old periods (hand self.old worker) }
    {
        let Some(job) = self.hands[worker as usize] else {
            return;
        };
        let job = job as usize;
        self.places[job] = self.places[job].saturating_add(periods).min(self.lens[job]);
    }

    fn push(&mut self, worker: u32)
        requires { worker < length self.old.hands }
        ensures { self.new ≡ pushed self.old worker (hand self.old worker) }
    {
        let Some(job) = self.hands[worker as usize] else {
            return;
        };
        self.hands[worker as usize] = None;
        self.waiting.push_reserved(Waiting { job, worker });
    }

    fn finish(&mut self, worker: u32)
        requires { worker < length self.old.hands }
        ensures { self.new ≡ completed self.old worker (hand self.old worker) }
    {
        let Some(job) = self.hands[worker as usize] else {
            return;
        };
        self.hands[worker as usize] = None;
        self.finished.push_reserved(job);
    }
}

fn empty_hands(alloc: Global, workers: u32) -> Result<Vec<Option<u32>>, AllocError>
    ensures { IfOk result (λ hands. hands.items ≡ replicate workers None) }
{
    vec![in alloc; None; workers as usize]
}

// Jobs 0 to `jobs` - 1, each with its worker.
fn deal(alloc: Global, workers: u32, jobs: u32) -> Result<Vec<Waiting>, AllocError>
    requires some { 0 < workers }
    requires jobs { jobs ≤ 4096 }
    ensures dealt { IfOk result (λ ws. (w : ℕ) → jobs_of ws.items w ≡ dealt workers jobs w) }
    ensures owned { IfOk result (λ ws. (k : ℕ) (d : OneWaiting) → k < length ws.items → (get_or ws.items k d).worker < workers) }
    ensures room { IfOk result (λ ws. jobs ≤ vec_capacity ws) }
{
    let mut waiting = Vec::with_capacity(alloc, jobs as usize)?;
    for job in 0..jobs {
        waiting.push_reserved(Waiting {
            job,
            worker: job % workers,
        });
    }
    Ok(waiting)
}

// The index of the front job of a worker's deque.
fn front(waiting: &[Waiting], worker: u32) -> Option<usize>
    ensures found { IfSome result (λ i. IsFront waiting.now worker i) }
    ensures none { IsNone result → jobs_of waiting.now worker ≡ [] }
{
    for place in 0..waiting.len() {
        if waiting[place].worker == worker {
            return Some(place);
        }
    }
    None
}
