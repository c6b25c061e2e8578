// What makes one program of a process: how words are read, and how a job is done.
ghost use Rattle.std.specs.Prelude.{◌≡◌, [], IfOk, List, Option, Result, map};
ghost use Rattle.diva_outside.specs.Lent.{lent};
ghost use Rattle.diva_outside.specs.Text.{Text};
ghost use Rattle.diva_process.specs.declared.status.Status.{Status};
ghost use Rattle.diva_process.specs.Programs.{FileBytes, Program, asked_for, doing};
ghost use Rattle.diva_process.specs.Promises.{KeepsPromises};

use crate::status::Status;
use crate::stop::Failure;
use diva_outside::{Files, Line, Sink};
use std::alloc::{AllocError, Global};

/// A program, apart from its process: the grammar of its words, its jobs, and what a job does with what the program has in its hands,
/// `H` (a core, say).
pub trait Front<H> {
    /// What words can ask for: a command with its options.
    type Job: Drop;

    /// The grammar of the words, the files of each job, and what is wrong with a file's bytes.
    ghost program: { Program Self.Job };

    /// Over files with these bytes a job came to this text, and the writing of it ended so, by what the program had in its hands
    /// before and after.
    ghost done: { H → H → Self.Job → FileBytes → Result Status Text → Text → Type 0 };

    /// A job may end with this status if its text was written whole.
    ghost can_end: { Self.Job → Status → Type 0 };

    /// The job that the words ask for, without the program's name; `None` if they are not a valid command line. The error is that
    /// memory runs out.
    fn job(&self, alloc: Global, words: &[&str]) -> Result<Option<Self::Job>, AllocError>
        ensures { IfOk result (λ job. job ≡ program.job_of (map (λ w. w.now) words.now)) };

    /// The line that answers words which are not a valid command line.
    fn usage(&self) -> Line
        ensures { result ≡ program.usage };

    /// Does a job: loads its files in order, and writes its text. What comes of it is the status, or why there is none.
    fn work<F: Files, S: Sink>(
        &self,
        alloc: Global,
        job: Self::Job,
        files: &mut F,
        sink: &mut S,
        hands: &mut H,
    ) -> Result<Status, Failure>
        ensures answers { KeepsPromises (asked_for program job) (doing done can_end hands.old hands.new) (lent F.account files.old files.new)
            (lent S.account sink.old sink.new) result }
        ensures unloaded { program.wanted job ≡ [] → files.new ≡ files.old };
}
