//! What follows of the text of a run, of the text of `soak`, and of the statuses. The functions have no body: their clauses are about the definitions.
ghost use Rattle.std.specs.Prelude.{◌≡◌, ℕ, true, Option, Result, IsOk};
ghost use Rattle.diva_outside.specs.Text.{Text};
ghost use Rattle.diva_args.specs.declared.job.RunOptions.{RunOptions};
ghost use Rattle.diva_args.specs.declared.job.SoakOptions.{SoakOptions};
ghost use Rattle.diva_args.specs.declared.job.CoreChoice.TheVariants.{Own};
ghost use Rattle.diva_args.specs.declared.job.LanePlace.{LanePlace};
ghost use Rattle.diva_cli.specs.Changes.{Change, change};
ghost use Rattle.diva_cli.specs.Determined.{IsDetermined};
ghost use Rattle.diva_cli.specs.Runs.{HasRun, LegsAreTurns, RunsAreReadOff};
ghost use Rattle.diva_cli.specs.SoakTexts.{HasSoaked};
ghost use Rattle.diva_process.specs.declared.status.Status.{Status};
ghost use Rattle.diva_cli.specs.Program.{TellsOfFiles, own_work};
ghost use Rattle.diva_outside.specs.Files.{LentFiles};
ghost use Rattle.diva_outside.specs.Sink.{LentSink};
ghost use Rattle.diva_args.specs.declared.job.Job.{Job};
ghost use Rattle.diva_process.specs.Process.{IsProcess};
ghost use Rattle.diva_process.specs.Programs.{Asked, FileBytes};

use diva_core::Core;
use diva_outside::{Files, Sink};

/// Where the calls of the core that is handed in are determined, so is the text of a run under it: by the words, the bytes
/// of the files and the core. Of a run with commit lines that is said where they were all written. The text of `soak` is
/// determined by its words and the core.
pub fn own_run_is_determined<C: Core>()
    requires { IsDetermined C.gives }
    ensures run { (options : RunOptions) (bytes : FileBytes) (core after last : C) (ended other : Result Status Text) (text same : Text)
        → options.setup.core ≡ Own
        → HasRun C.gives options bytes (change core after) ended text → HasRun C.gives options bytes (change core last) other same
        → (options.trace ≡ true → IsOk ended × IsOk other)
        → text ≡ same }
    ensures soak { (options : SoakOptions) (core after last : C) (ended other : Result Status Text) (text same : Text)
        → HasSoaked C.gives options (change core after) ended text → HasSoaked C.gives options (change core last) other same
        → text ≡ same }
{}

/// What is promised of the text of a run is promised whether lanes vote or not, and wherever the liar stands: the text that is
/// due without is the text that is due with a liar in any place, and the other way round.
#[tactic(auto, using(crate::proofs::Voting::run_with_liar))]
pub fn one_liar_is_outvoted<C: Core>()
    ensures { (options : RunOptions) (liar : Option LanePlace) (bytes : FileBytes) (core : Change C) (ended : Result Status Text) (text : Text)
        → HasRun C.gives options bytes core ended text
        → HasRun C.gives (record options { liar = liar }) bytes core ended text }
{}

/// A run is a session of one part, and what a session says of its parts is read off of it: what the lists of a run lead to, what
/// each of their cycles commits, and which rows it adds to the log; its pace; and that right lists are not flushed. The legs of one part are
/// turns, each of them a call of the core, under a script or without one.
pub fn run_is_one_part<C: Core>()
    ensures off { RunsAreReadOff C.gives }
    ensures turns { LegsAreTurns C.gives }
{}

/// What `top` refuses, or can't read, is a file, and then no job is done: no job of `diva` judges a text that it reads as it goes, so `Wrong`
/// is the status of none.
#[tactic(auto, using(crate::proofs::Judging::tells_of_files))]
pub fn only_files_are_refused<C: Core, F: Files, S: Sink>()
    ensures { (asked : Asked Job) (before after : C) (files : LentFiles F) (sink : LentSink S) (ends : Status)
        → IsProcess asked (own_work C.gives before after) files sink ends
        → TellsOfFiles asked (own_work C.gives before after) files sink ends }
{}
