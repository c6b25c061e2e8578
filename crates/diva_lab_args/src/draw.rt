// The words of `log` and `draw`.
ghost use Rattle.std.specs.Prelude.{◌≡◌};
ghost use Rattle.clap.specs.Walk.{rows_of};
ghost use Rattle.clap.specs.Words.{found_of};
ghost use Rattle.diva_args.specs.Fault.{Reads};
ghost use Rattle.diva_args.specs.Line.{values_of};
ghost use Rattle.diva_lab_args.specs.Lab.{drawing_from, drawn_by, drawn_run_from};

use crate::lab::LabJob;
use crate::rows::{FROM, TO};
use clap::ArgMatches;
use diva_args::parts::{CYCLES, liar, number_of, or_usage, setup, text_of, width};
use diva_args::{ArgsFault, RunOptions};
use std::alloc::Global;

/// `log IMAGE` or `draw IMAGE`, with the options of `run` but `--trace` and `--dump`; `draw` with two more.
#[derive(Debug, Drop)]
pub struct DrawOptions {
    /// The run.
    pub run: RunOptions,
    /// How it is drawn.
    pub format: Format,
}

/// How a run is drawn.
#[derive(Clone, Copy, Debug, PartialEq, Eq)]
pub enum Format {
    /// `log`: as a log for the Konata viewer.
    Log,
    /// `draw`: as a drawing in text, of some cycles. Cycles count from 1.
    Drawing {
        /// `--from`: the first of them, 1 to 1,000,000,000; 1 by default.
        from: u64,
        /// `--to`: the last of them, `from` to 1,000,000,000, which is by default as late as a run can last.
        to: u64,
    },
}

/// A run that is drawn in this format.
pub(crate) fn drawn(
    alloc: Global,
    found: &ArgMatches<'_>,
    format: Option<Format>,
) -> Result<LabJob, ArgsFault>
    ensures { Reads (drawn_by (drawn_run_from (values_of (rows_of (found_of found.now)))) format) result }
{
    let run = drawn_run(alloc, found)?;
    let format = or_usage(format)?;
    Ok(LabJob::Draw(DrawOptions { run, format }))
}

/// The run, which has neither commit lines nor a part of memory to show.
#[tactic(auto, unfolding(crate::specs::Lab::drawn_run_from))]
fn drawn_run(alloc: Global, found: &ArgMatches<'_>) -> Result<RunOptions, ArgsFault>
    ensures { Reads (drawn_run_from (values_of (rows_of (found_of found.now)))) result }
{
    let setup = setup(alloc, found, width(found))?;
    let cycles = or_usage(number_of(found, &CYCLES))?;
    let liar = or_usage(liar(text_of(found, "liar")))?;
    Ok(RunOptions {
        setup,
        cycles,
        trace: false,
        dump: None,
        liar,
    })
}

/// A drawing of the cycles that the words ask for: all that a run can have, where they ask for none.
#[tactic(auto, unfolding(crate::specs::Lab::drawing_from))]
pub(crate) fn drawing(found: &ArgMatches<'_>) -> Option<Format>
    ensures { result ≡ drawing_from (values_of (rows_of (found_of found.now))) }
{
    let from = u64::from(number_of(found, &FROM)?.get());
    let to = u64::from(number_of(found, &TO)?.get());
    if from <= to {
        Some(Format::Drawing { from, to })
    } else {
        None
    }
}
