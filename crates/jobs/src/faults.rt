// What a job is refused for.
ghost use Rattle.std.specs.Prelude.{◌≡◌};
ghost use Rattle.jobs.specs.declared.faults.JobFault.{JobFault};
ghost use Rattle.jobs.specs.Faults.{job_report};

use lines::faults::LineFault;
use refusals::refusal::Refusal;
use refusals::report::Report;
use words::faults::WordFault;

/// The fault of a job: that of its line, or of its word.
#[derive(Clone, Copy, Debug, PartialEq)]
pub enum JobFault {
    Line(LineFault),
    Word(WordFault),
}

impl From<LineFault> for JobFault {
    ghost from_gives = { λ f r. r ≡ JobFault.Line f };

    fn from(value: LineFault) -> JobFault {
        JobFault::Line(value)
    }
}

impl From<WordFault> for JobFault {
    ghost from_gives = { λ f r. r ≡ JobFault.Word f };

    fn from(value: WordFault) -> JobFault {
        JobFault::Word(value)
    }
}

impl Refusal for JobFault {
    ghost reported = { job_report };

    fn report(&self) -> Report {
        match self {
            JobFault::Line(fault) => fault.report(),
            JobFault::Word(fault) => fault.report(),
        }
    }
}
