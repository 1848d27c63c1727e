//! The part that a finished job belongs to: the job's own part, 0 for Begin and Join.
ghost use Rattle.std.specs.Prelude.{◌≡◌};
ghost use Rattle.bs_fiber.specs.PartOf.{part_of, part_of_kind};

use crate::done::Done;
use crate::job::{JobKind, JobName};
use bs_counter::Parted;

fn part_of_job(job: JobName) -> usize
    ensures { result ≡ part_of_kind job.kind job.part }
{
    match job.kind {
        JobKind::Begin => 0,
        JobKind::Part => job.part as usize,
        JobKind::Join => 0,
    }
}

impl<const CAP: usize> Parted for Done<CAP> {
    ghost part_of = { λ done. part_of done.input };

    fn part(&self) -> usize {
        part_of_job(self.ticket().job())
    }
}
