// Jobs, by their names. Two jobs of one name may differ in their kind.
ghost use Rattle.std.proofs.lemmas.Cmp.{nat_cmp_total, lists_total, on_total};
ghost use Rattle.sorted_list.proofs.Orders.{lawful};
ghost use Rattle.sorted_list_tests.specs.Records.{job_rank, no_job};
ghost use Rattle.sorted_list_tests.specs.declared.job.Job.{Job};

use sorted_list::Record;
use std::cmp::Ordering;

#[derive(Clone, Copy, PartialEq, Eq, Debug)]
pub enum Kind {
    Read,
    Write(u8),
}

#[derive(Clone, Copy, PartialEq, Eq, Debug)]
pub struct Job {
    pub kind: Kind,
    pub name: [u8; 2],
}

impl Record for Job {
    ghost rank = { job_rank };

    ghost vacant = { no_job };

    ghost order = { lawful (on_total (λ (j : Job). j.name) (lists_total nat_cmp_total)) };

    fn compare(&self, other: &Job) -> Ordering {
        self.name.cmp(&other.name)
    }

    fn blank() -> Job {
        Job {
            kind: Kind::Read,
            name: [0, 0],
        }
    }
}
