// Why a job has no answer.
ghost use Rattle.std.specs.Prelude.{◌≡◌, MatchResult};
ghost use Rattle.jobs.specs.declared.faults.JobFault.TheVariants as fault;
ghost use Rattle.jobs.specs.declared.errors.JobError.TheVariants.{Refused, Memory};

use crate::faults::JobFault;
use lines::faults::LineFault;
use lines::located::Located;
use std::alloc::AllocError;
use words::faults::WordFault;

/// Why a job has no answer: it is refused, or memory ran out.
#[derive(Clone, Copy, Debug, PartialEq)]
pub enum JobError {
    Refused(JobFault),
    Memory(AllocError),
}

impl JobError {
    /// The refusal, with the number of its line; or the error where memory ran out.
    pub fn at(self, line: usize) -> Result<Located<JobFault>, AllocError>
        ensures { MatchResult result (λ refused. (refused.line ≡ line) × (self ≡ Refused refused.fault)) (λ error. self ≡ Memory error) }
    {
        match self {
            JobError::Refused(fault) => Ok(Located { line, fault }),
            JobError::Memory(error) => Err(error),
        }
    }
}

impl From<LineFault> for JobError {
    ghost from_gives = { λ f r. r ≡ Refused (fault.Line f) };

    fn from(value: LineFault) -> JobError {
        JobError::Refused(JobFault::from(value))
    }
}

impl From<WordFault> for JobError {
    ghost from_gives = { λ f r. r ≡ Refused (fault.Word f) };

    fn from(value: WordFault) -> JobError {
        JobError::Refused(JobFault::from(value))
    }
}

impl From<AllocError> for JobError {
    ghost from_gives = { λ e r. r ≡ Memory e };

    fn from(value: AllocError) -> JobError {
        JobError::Memory(value)
    }
}
