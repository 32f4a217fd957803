//! A job that is run in slices, and the gate that each slice passes.

ghost use Rattle.std.specs.Prelude.{◌≡◌, ℕ, ◌-◌, ◌≤◌, ◌↔◌, IsTrue};

/// A job that runs in slices of one place or more, place by place, until none remains. The places of a call are its
/// periods of 20 ms in a round.
pub trait Work: Drop {
    /// The remaining places.
    ghost left: { Self → ℕ };

    /// The finished job that this job becomes.
    ghost finish: { Self → Self };

    /// The number of its call.
    ghost number: { Self → ℕ };

    /// The number of its call.
    fn call(&self) -> u32
        ensures { result ≡ number self.now };

    /// Runs the next `q` places, or all remaining ones if they are fewer.
    fn slice(&mut self, q: u32)
        requires { 1 ≤ q }
        // (`-` stops at 0.)
        ensures left { left self.new ≡ left self.old - q }
        ensures finish { finish self.new ≡ finish self.old }
        ensures call { number self.new ≡ number self.old };

    /// Whether no place remains.
    fn finished(&self) -> bool
        ensures { IsTrue result ↔ (left self.now ≡ 0) };

    /// A job without remaining places is its own finished job.
    ghost stays: { (x : Self) → left x ≡ 0 → finish x ≡ x };
}

/// Called before and after each slice of a pool, and by `live_run` before and after each post. The pool and `live_run`
/// learn nothing from it, and no clause names it. It may hold a slice or a post back, as a test does.
pub trait Gate {
    /// Before a slice of this call's job, or a post to this call.
    fn before(&self, call: u32);

    /// After a slice of this call's job, or once a post to this call was accepted.
    fn after(&self, call: u32);
}

/// A gate that holds nothing back.
#[derive(Drop)]
pub struct OpenGate;

impl Gate for OpenGate {
    fn before(&self, _call: u32) {}

    fn after(&self, _call: u32) {}
}

/// Runs one slice of a job, between the calls of the gate.
pub(crate) fn run_slice<W: Work, G: Gate>(job: &mut W, slice: u32, gate: &G)
    requires { 1 ≤ slice }
    ensures left { W.left job.new ≡ W.left job.old - slice }
    ensures finish { W.finish job.new ≡ W.finish job.old }
{
    let call = job.call();
    gate.before(call);
    job.slice(slice);
    gate.after(call);
}

/// Runs a job to its end.
pub(crate) fn run_to_end<W: Work, G: Gate>(job: &mut W, slice: u32, gate: &G)
    requires { 1 ≤ slice }
    ensures finish { job.new ≡ W.finish job.old }
    ensures ended { W.finish job.new ≡ job.new }
{
    while !job.finished() {
        run_slice(job, slice, gate);
    }
}
