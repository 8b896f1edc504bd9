// The answer to a job's line.
ghost use Rattle.jobs.specs.Answering.{Answered, JobAnswer, Leaves, LineAnswer};

use crate::errors::JobError;
use crate::word_jobs::{descents, distance, form, inverse, length, product};
use carriers::carrier::Carrier;
use lines::faults::LineFault;
use lines::keys::read;
use lines::line::{Due, Job, Line};
use std::alloc::Global;

// heap and carrier stay parameters, for the reason that stands in word_jobs.rt.

// The answer to a job. A job whose call is not there yet is answered as a line whose key is not due.
fn answer_job<C: Carrier>(heap: Global, carrier: &mut C, job: Job) -> Result<String, JobError>
    ensures left { Leaves C.Carrier.frame C.Carrier.at carrier.old carrier.new result }
    ensures answered { Answered (JobAnswer (C.Carrier.frame carrier.old) job.entry) result }
{
    match job {
        Job::Form(word) => form(heap, carrier, word),
        Job::Inverse(word) => inverse(heap, carrier, word),
        Job::Length(word) => length(heap, carrier, word),
        Job::Descents(word) => descents(heap, carrier, word),
        Job::Product(u, v) => product(heap, carrier, u, v),
        Job::Distance(u, v) => distance(heap, carrier, u, v),
        Job::File(_) | Job::Withdraw(_) | Job::Tally(_) | Job::Sum => {
            Err(JobError::from(LineFault::Unexpected))
        }
    }
}

/// Answers the line of a job.
pub fn answer<C: Carrier>(heap: Global, carrier: &mut C, line: &[u8]) -> Result<String, JobError>
    ensures left { Leaves C.Carrier.frame C.Carrier.at carrier.old carrier.new result }
    ensures answered { Answered (LineAnswer (C.Carrier.frame carrier.old) line.now) result }
{
    let Line::Job(job) = read(Due::Job, line)? else {
        unreachable!()
    };
    answer_job(heap, carrier, job)
}
