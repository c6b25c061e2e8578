// The workbench, from the words to the status.
ghost use Rattle.std.specs.Prelude.{◌≡◌, []};
ghost use Rattle.diva_outside.specs.Lent.{lent};
ghost use Rattle.diva_process.specs.Programs.{asked_by, asked_for};
ghost use Rattle.diva_process.specs.Process.{IsProcess};
ghost use Rattle.diva_process.specs.Statuses.{IsNumberOf};
ghost use Rattle.diva_process.specs.Promises.{KeepsPromises};
ghost use Rattle.diva_cli.specs.Changes.{asking};
ghost use Rattle.diva_workbench.specs.Lab.{lab, lab_usage_line, lab_wanted, lab_work_of, own_lab_work};
ghost use Rattle.diva_cli.specs.Lanes.{AreHonest, are_asked};

use crate::drawing::draw;
use crate::injecting::inject;
use crate::judging::judge_log;
use diva_args::ArgsFault;
use diva_cli::{Lanes, work};
use diva_core::CopyCore;
use diva_lab_args::{LabJob, read_lab_words};
use diva_outside::{Files, Line, Sink};
use diva_process::{Failure, Front, Status, run_process};
use diva_rating::rate_files;
use diva_source::Source;
use diva_vote::Lane;
use std::alloc::{AllocError, Global};

/// What the workbench has in its hands.
#[derive(Drop)]
pub struct Hands<C, D> {
    /// The core that its machine asks.
    pub core: C,
    /// The texts that it reads piece by piece.
    pub source: D,
}

/// Runs the workbench on the words of its command line (without its name) over the files, the sink
/// and what it has in its hands, and answers the number of its status. It does all that [`top`](diva_cli::top) does, and has five
/// commands besides. The statuses of `log` and `draw` are those of `run`: what is drawn of a run is told from what is seen of the machine
/// after each cycle, and all that is promised of a run holds of it. `judge` reads the log of a core line by line, and tells by its status
/// whether all that the log says of the program's instructions is due. `inject` runs an image under one fault after the other, with the checker
/// and without it, and `rate` tells the rates of such faults.
///
/// | status | comes |
/// |---|---|
/// | 0 | the run halted, of two harts both, of a campaign the first run; of the commands that run nothing to its end, and of `inject` and `rate`, the whole text was written; each line of a log that is judged is right, and each instruction has its line |
/// | 2 | the words are not a valid command line; the usage line is written |
/// | 3 | the run trapped, of a campaign the first one; of two harts both have ended, and one by a trap at least; a log is right as for 0, and the program traps |
/// | 4 | exactly the cycles asked for were run, and the machine goes on; of two harts one does, or owes a store; a log ends before its program does, and no line of it is wrong |
/// | 5 | the first file that can't be used has a fault, or is too long, or a line of a log, or of a file that is rated, has a fault; a line says so |
/// | 6 | a line of a log is wrong, or lines are left over after the program's end |
/// | 8 | the first file that can't be used can't be read, or a log, or a file that is rated, can't be read to its end, or memory ran out for the lines of the latter; a line says so |
/// | 9 | the sink failed; a prefix of the text was written |
/// | 10 | memory ran out; nothing was written |
pub fn lab_top<F: Files, S: Sink, C: CopyCore + Drop, D: Source>(
    alloc: Global,
    words: &[&str],
    files: &mut F,
    sink: &mut S,
    hands: &mut Hands<C, D>,
) -> u8
    ensures { IsNumberOf (IsProcess (asked_by lab words.now) (own_lab_work C.gives D.account hands.old hands.new)
        (lent F.account files.old files.new) (lent S.account sink.old sink.new)) result }
{
    run_process(&Lab, alloc, words, files, sink, hands).number()
}

/// The workbench, over what it has in its hands.
struct Lab;

impl<C: CopyCore + Drop, D: Source> Front<Hands<C, D>> for Lab {
    ghost use Rattle.diva_workbench.specs.Lab.{LabEnds, lab, own_lab_done};

    type Job = LabJob;

    ghost program = { lab };

    ghost done = { own_lab_done C.gives D.account };

    ghost can_end = { LabEnds };

    fn job(&self, alloc: Global, words: &[&str]) -> Result<Option<LabJob>, AllocError> {
        match read_lab_words(alloc, words) {
            Ok(job) => Ok(Some(job)),
            Err(ArgsFault::Usage) => Ok(None),
            Err(ArgsFault::Memory) => Err(AllocError),
        }
    }

    fn usage(&self) -> Line {
        lab_usage_line()
    }

    fn work<F: Files, S: Sink>(
        &self,
        alloc: Global,
        job: LabJob,
        files: &mut F,
        sink: &mut S,
        hands: &mut Hands<C, D>,
    ) -> Result<Status, Failure> {
        lab_work(
            alloc,
            job,
            files,
            sink,
            &mut hands.core,
            &mut hands.source,
            &mut Lanes::own(),
        )
    }
}

/// Does a job of the workbench over the files, the sink, the core, the source and the lanes that it is handed, as [`work`](diva_cli::work)
/// does one of `diva`. The lanes are asked in a run that is drawn as they are in `run`.
pub fn lab_work<F: Files, S: Sink, C: CopyCore + Drop, D: Source, L: Lane>(
    alloc: Global,
    job: LabJob,
    files: &mut F,
    sink: &mut S,
    core: &mut C,
    source: &mut D,
    lanes: &mut Lanes<L>,
) -> Result<Status, Failure>
    requires { AreHonest L.honest lanes.old }
    ensures answers { KeepsPromises (asked_for lab job) (lab_work_of C.gives
        (asking core.old core.new (are_asked L.says lanes.old lanes.new)) (lent D.account source.old source.new))
        (lent F.account files.old files.new) (lent S.account sink.old sink.new) result }
    ensures unloaded { lab_wanted job ≡ [] → files.new ≡ files.old }
{
    match job {
        LabJob::Diva(job) => work(alloc, job, files, sink, core, lanes),
        LabJob::Draw(options) => draw(alloc, options, files, sink, core, lanes),
        LabJob::Judge(options) => judge_log(alloc, &options, files, sink, source),
        LabJob::Inject(options) => inject(alloc, options, files, sink, core),
        LabJob::Rate(names) => rate_files(alloc, names.as_slice(), source, sink),
    }
}

/// The line for words that are not a valid command line of the workbench.
#[tactic(auto, unfolding(crate::specs::Lab::lab_usage_line))]
fn lab_usage_line() -> Line
    ensures { result ≡ lab_usage_line }
{
    let mut line = Line::new();
    line.text(
        b"usage: diva_lab log|draw IMAGE, judge IMAGE LOG, inject IMAGE COUNT SEED, rate FILE.., with options, or the words of diva\n",
    );
    line
}
