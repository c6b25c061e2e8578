// The command `judge`: it loads its image with neither source nor sink in its hands, and then judges the log line by line, as it reads it.
ghost use Rattle.std.specs.Prelude.{◌≡◌, ◌<◌, ◌^◌};
ghost use Rattle.diva_lab_args.specs.declared.lab.LabJob.TheVariants.{Judge};
ghost use Rattle.diva_core.specs.Timed.{new_timed};
ghost use Rattle.diva_outside.specs.Lent.{lent};
ghost use Rattle.diva_process.specs.Programs.{FileBytes, asked_for};
ghost use Rattle.diva_process.specs.Promises.{KeepsPromises};
ghost use Rattle.diva_process.specs.Writing.{WritesLine, WritesText};
ghost use Rattle.diva_process.specs.declared.status.Status.TheVariants as status;
ghost use Rattle.diva_judge.specs.Texts.{unreadable_text};
ghost use Rattle.diva_cli.specs.Ready.{IsReady};
ghost use Rattle.diva_workbench.specs.Judges.{status_by, terms_of};
ghost use Rattle.diva_workbench.specs.Draws.{WritesJudgement};
ghost use Rattle.diva_workbench.specs.Lab.{lab, lab_work_of, no_core, none_asked};

use diva_cli::{Ready, make_ready};
use diva_judge::{Terms, Verdict, judge, put_unreadable};
use diva_lab_args::JudgeOptions;
use diva_outside::{Files, Sink};
use diva_process::{Failure, Status, write_stop};
use diva_source::Source;
use std::alloc::Global;

/// Judges what a log says of each instruction of an image. All memory is taken before the log is opened and before anything is written.
#[inline(never)]
pub(crate) fn judge_log<F: Files, S: Sink, D: Source>(
    alloc: Global,
    options: &JudgeOptions,
    files: &mut F,
    sink: &mut S,
    source: &mut D,
) -> Result<Status, Failure>
    ensures { KeepsPromises (asked_for lab (Judge options.now)) (lab_work_of no_core none_asked (lent D.account source.old source.new))
        (lent F.account files.old files.new) (lent S.account sink.old sink.new) result }
{
    match make_ready(alloc, files, &options.setup) {
        Ok(mut ready) => judge_ready(&mut ready, options, source, sink),
        Err(stop) => write_stop(stop, sink),
    }
}

/// Opens the log, and has a new machine judge it.
fn judge_ready<S: Sink, D: Source>(
    ready: &mut Ready,
    options: &JudgeOptions,
    source: &mut D,
    sink: &mut S,
) -> Result<Status, Failure>
    requires new { ready.old.machine.timed ≡ new_timed ready.old.machine.timed.config ready.old.machine.timed.arch }
    ensures { (bytes : FileBytes) → IsReady options.now.setup bytes ready.old
        → WritesText (lab_work_of no_core none_asked (lent D.account source.old source.new)) (Judge options.now) bytes
        (lent S.account sink.old sink.new) result }
{
    match source.open(options.log.as_str()) {
        Ok(()) => judge_open(ready, options, source, sink),
        Err(_) => put_unopened(sink),
    }
}

/// That the log can't be opened.
fn put_unopened<S: Sink>(sink: &mut S) -> Result<Status, Failure>
    ensures { WritesLine unreadable_text status.Unread (lent S.account sink.old sink.new) result }
{
    put_unreadable(sink)?;
    Ok(Status::Unread)
}

/// Has a new machine judge the log that the source has open.
fn judge_open<S: Sink, D: Source>(
    ready: &mut Ready,
    options: &JudgeOptions,
    source: &mut D,
    sink: &mut S,
) -> Result<Status, Failure>
    requires new { ready.old.machine.timed ≡ new_timed ready.old.machine.timed.config ready.old.machine.timed.arch }
    requires bounded { (D.account source.old).limit < 2 ^ 64 }
    ensures { WritesJudgement (terms_of options.now) ready.old.machine.timed.arch (lent D.account source.old source.new)
        (lent S.account sink.old sink.new) result }
{
    let terms = Terms {
        stop: options.stop,
        answers: options.answers,
    };
    let verdict = judge(&mut ready.machine, source, terms, sink)?;
    Ok(status_by(verdict))
}

/// The status that goes with a verdict.
fn status_by(verdict: Verdict) -> Status
    ensures { result ≡ status_by verdict }
{
    match verdict {
        Verdict::Halted => Status::Halted,
        Verdict::Trapped => Status::Trapped,
        Verdict::Short => Status::GoesOn,
        Verdict::Wrong => Status::Wrong,
        Verdict::Refused => Status::Refused,
        Verdict::Unread => Status::Unread,
    }
}
