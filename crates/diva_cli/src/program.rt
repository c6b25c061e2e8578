// The program `diva`, from the words to the status, and what each of its jobs does.
ghost use Rattle.std.specs.Prelude.{◌≡◌, []};
ghost use Rattle.diva_outside.specs.Lent.{lent};
ghost use Rattle.diva_process.specs.Programs.{asked_by, asked_for};
ghost use Rattle.diva_process.specs.Process.{IsProcess};
ghost use Rattle.diva_process.specs.Statuses.{IsNumberOf};
ghost use Rattle.diva_process.specs.Promises.{KeepsPromises};
ghost use Rattle.diva_cli.specs.Changes.{asking};
ghost use Rattle.diva_cli.specs.Lanes.{AreHonest, are_asked};
ghost use Rattle.diva_cli.specs.Program.{diva, own_work, work_of};
ghost use Rattle.diva_cli.specs.Wanted.{wanted};

use crate::campaign::campaign;
use crate::debug::debug;
use crate::duo::duo;
use crate::images::{asm, dis, migrate};
use crate::lanes::Lanes;
use crate::lines::usage_line;
use crate::run::{run, tape};
use crate::soak::soak;
use diva_args::{ArgsFault, Job, read_words};
use diva_core::Core;
use diva_outside::{Files, Line, Sink};
use diva_process::{Failure, Front, Status, run_process};
use diva_vote::Lane;
use std::alloc::{AllocError, Global};

/// Runs the program on the words of its command line (without its name) over the files, the sink
/// and the core that it is handed, and answers the number of its status.
///
/// Whatever the core hands over and a script makes of it, the text of a run is that of a machine whose committed state is the table's
/// after the counted instructions, from the state that the bytes of its image or executable start; and the text of a tape is all that was
/// handed to such a machine, and leads another one to its state. The replies of a session show the table's states, and the flushes of
/// such a machine. Both runs of a seed's image halt, in the same state.
///
/// | status | comes |
/// |---|---|
/// | 0 | the run halted, of two harts both, of a campaign the first run; of the commands that run nothing to its end, the whole text was written |
/// | 2 | the words are not a valid command line; the usage line is written |
/// | 3 | the run trapped, of a campaign the first one; of two harts both have ended, and one by a trap at least |
/// | 4 | exactly the cycles asked for were run, and the machine goes on; of two harts one does, or owes a store |
/// | 5 | the first file that can't be used has a fault, or is too long; a line says so |
/// | 8 | the first file that can't be used can't be read; a line says so |
/// | 9 | the sink failed; a prefix of the text was written |
/// | 10 | memory ran out; nothing was written |
pub fn top<F: Files, S: Sink, C: Core>(
    alloc: Global,
    words: &[&str],
    files: &mut F,
    sink: &mut S,
    core: &mut C,
) -> u8
    ensures { IsNumberOf (IsProcess (asked_by diva words.now) (own_work C.gives core.old core.new) (lent F.account files.old files.new)
        (lent S.account sink.old sink.new)) result }
{
    run_process(&Diva, alloc, words, files, sink, core).number()
}

/// The program `diva`, over a core.
struct Diva;

impl<C: Core> Front<C> for Diva {
    ghost use Rattle.diva_cli.specs.Program.{diva, own_done};
    ghost use Rattle.diva_cli.specs.Texts.{CanEnd};

    type Job = Job;

    ghost program = { diva };

    ghost done = { own_done C.gives };

    ghost can_end = { CanEnd };

    fn job(&self, alloc: Global, words: &[&str]) -> Result<Option<Job>, AllocError> {
        match read_words(alloc, words) {
            Ok(job) => Ok(Some(job)),
            Err(ArgsFault::Usage) => Ok(None),
            Err(ArgsFault::Memory) => Err(AllocError),
        }
    }

    fn usage(&self) -> Line {
        usage_line()
    }

    fn work<F: Files, S: Sink>(
        &self,
        alloc: Global,
        job: Job,
        files: &mut F,
        sink: &mut S,
        core: &mut C,
    ) -> Result<Status, Failure> {
        work(alloc, job, files, sink, core, &mut Lanes::own())
    }
}

/// Does a job over the files, the sink, the core and the lanes that it is handed: an arm for each command. What comes of it is what
/// `top` answers of words that ask for the job: the status, or why there is none.
///
/// Where the options of a run have a place for a liar, the three lanes of that place's `liar` and of the other places' `honest` are asked
/// each question of the run, in order. No other lane is asked, and none by any other command.
///
/// None of the commands is inlined: what one has on the stack is not there while another runs.
pub fn work<F: Files, S: Sink, C: Core, L: Lane>(
    alloc: Global,
    job: Job,
    files: &mut F,
    sink: &mut S,
    core: &mut C,
    lanes: &mut Lanes<L>,
) -> Result<Status, Failure>
    requires { AreHonest L.honest lanes.old }
    ensures answers { KeepsPromises (asked_for diva job) (work_of C.gives
        (asking core.old core.new (are_asked L.says lanes.old lanes.new))) (lent F.account files.old files.new) (lent S.account sink.old sink.new) result }
    ensures unloaded { wanted job ≡ [] → files.new ≡ files.old }
{
    match job {
        Job::Run(options) => run(alloc, options, files, sink, core, lanes),
        Job::Tape(options) => tape(alloc, options, files, sink, core, lanes),
        Job::Duo(options) => duo(alloc, options, files, sink, core),
        Job::Debug(options) => debug(alloc, options, files, sink, core, lanes),
        Job::Asm(source) => asm(alloc, source, files, sink, core),
        Job::Dis(image) => dis(alloc, image, files, sink, core),
        Job::Migrate(options) => migrate(alloc, options, files, sink, core),
        Job::Soak(options) => soak(alloc, options, files, sink, core),
        Job::Campaign(options) => campaign(alloc, options, files, sink, core, lanes),
    }
}
