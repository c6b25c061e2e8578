// A whole program, from the words to the status.
ghost use Rattle.std.specs.Prelude.{◌≡◌};
ghost use Rattle.diva_outside.specs.Lent.{lent};
ghost use Rattle.diva_process.specs.Programs.{asked_by, doing, job_in};
ghost use Rattle.diva_process.specs.Process.{IsProcess};
ghost use Rattle.diva_process.specs.Promises.{KeepsPromises, status_of};
ghost use Rattle.diva_process.specs.Statuses.{LoadsNothing};

use crate::front::Front;
use crate::status::Status;
use crate::stop::Failure;
use crate::writing::write_line;
use diva_outside::{Files, Sink};
use std::alloc::Global;

/// Runs a program on the words of its command line (without its name) over the files, the sink and what it has in its hands, and
/// answers what it ends with.
#[tactic(auto, using(crate::proofs::Processing::process_of))]
pub fn run_process<P: Front<H>, H, F: Files, S: Sink>(
    front: &P,
    alloc: Global,
    words: &[&str],
    files: &mut F,
    sink: &mut S,
    hands: &mut H,
) -> Status
    ensures { IsProcess (asked_by P.program words.now) (doing P.done P.can_end hands.old hands.new) (lent F.account files.old files.new)
        (lent S.account sink.old sink.new) result }
{
    status_of(answer(front, alloc, words, files, sink, hands))
}

/// What the program ends with.
fn status_of(answered: Result<Status, Failure>) -> Status
    ensures { result ≡ status_of answered }
{
    match answered {
        Ok(status) => status,
        Err(Failure::Cut) => Status::Cut,
        Err(Failure::Memory) => Status::NoMemory,
    }
}

/// Does the job that the words ask for, or writes the usage line.
#[tactic(auto, using(crate::proofs::Answering::misused_answers))]
fn answer<P: Front<H>, H, F: Files, S: Sink>(
    front: &P,
    alloc: Global,
    words: &[&str],
    files: &mut F,
    sink: &mut S,
    hands: &mut H,
) -> Result<Status, Failure>
    ensures answers { KeepsPromises (asked_by P.program words.now) (doing P.done P.can_end hands.old hands.new) (lent F.account files.old files.new)
        (lent S.account sink.old sink.new) result }
    ensures unloaded { LoadsNothing P.program (job_in P.program words.now) → files.new ≡ files.old }
{
    match front.job(alloc, words)? {
        Some(job) => front.work(alloc, job, files, sink, hands),
        None => write_line(&front.usage(), Status::Misused, sink),
    }
}
