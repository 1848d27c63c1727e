//! The trait `Gate`, which is consulted before each job.
ghost use Rattle.std.specs.Prelude.{◌≡◌, false, true};

use bs_fiber::JobName;

/// Consulted before each job, by the thread that runs it.
pub trait Gate: Sync {
    /// Whether the gate may refuse a job. By default nothing is known: it may.
    ghost may_refuse: { Self → Type 0 } = { λ _. Unit {0} };

    /// Whether the thread of that number, from 0, may run the job. False stops the run, and only a
    /// gate that may refuse returns it.
    fn at(&self, worker: usize, job: JobName) -> bool
        ensures { result ≡ false → may_refuse self.now };
}

/// Lets every job pass: it never refuses.
#[derive(Clone, Copy, Debug)]
pub struct OpenGate;

impl Gate for OpenGate {
    ghost may_refuse = { λ _. ⊥ };

    fn at(&self, _worker: usize, _job: JobName) -> bool
        ensures { result ≡ true }
    {
        true
    }
}
