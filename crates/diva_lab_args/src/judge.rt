// The words of `judge`.
ghost use Rattle.std.specs.Prelude.{◌≡◌};
ghost use Rattle.clap.specs.Walk.{rows_of};
ghost use Rattle.clap.specs.Words.{found_of};
ghost use Rattle.diva_args.specs.Fault.{Reads};
ghost use Rattle.diva_args.specs.Line.{values_of};
ghost use Rattle.diva_lab_args.specs.Lab.{judge_from};
ghost use Rattle.diva_lab_args.specs.Rows.{optional_of, stop_row};

use crate::rows::{STOP, optional};
use clap::ArgMatches;
use diva_args::parts::{file_of, is_set, or_usage, setup, width};
use diva_args::{ArgsFault, FileName, Setup};
use std::alloc::Global;

/// `judge IMAGE LOG` with its options.
#[derive(Debug, Drop)]
pub struct JudgeOptions {
    /// The image, and the machine that judges. No other core takes part: `setup.core` is the program's own, which is not asked, and
    /// there is no script.
    pub setup: Setup,
    /// `LOG`: the name of the log, with what is said of `IMAGE`; `-` is standard input.
    pub log: FileName,
    /// `--stop`: after so many wrong lines no further one is judged, 1 to 4,294,967,295; `None` if the option is not given.
    pub stop: Option<u32>,
    /// `--answer`: each line is answered.
    pub answers: bool,
}

/// `judge IMAGE LOG` with its options.
#[tactic(auto, unfolding(crate::specs::Lab::judge_from))]
pub(crate) fn judge(alloc: Global, found: &ArgMatches<'_>) -> Result<JudgeOptions, ArgsFault>
    ensures { Reads (judge_from (values_of (rows_of (found_of found.now)))) result }
{
    let setup = setup(alloc, found, width(found))?;
    let log = file_of(alloc, found, "LOG")?;
    let stop = or_usage(stop(found))?;
    Ok(JudgeOptions {
        setup,
        log,
        stop,
        answers: is_set(found, "answer"),
    })
}

/// The number of `--stop`: `Some(None)` if the option is not given, and `None` if the word spells none in its range.
fn stop(found: &ArgMatches<'_>) -> Option<Option<u32>>
    ensures { result ≡ optional_of stop_row (values_of (rows_of (found_of found.now))) }
{
    match optional(found, &STOP)? {
        Some(stop) => Some(Some(stop.get())),
        None => Some(None),
    }
}
