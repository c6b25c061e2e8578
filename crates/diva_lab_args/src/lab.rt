// The words of the workbench: those of `diva`, and commands of its own.
ghost use Rattle.std.specs.Prelude.{◌≡◌, ◌≤◌, ◌∷◌, ◌++◌, false, codes, length, List, IfOk, Err, None, Some, map, option_and_then};
ghost use Rattle.std.specs.List.{list_any};
ghost use Rattle.clap.specs.Walk.{Text};
ghost use Rattle.clap.specs.Words.{subcommand_rows_of};
ghost use Rattle.diva_args.specs.Fault.{Reads};
ghost use Rattle.diva_args.specs.Plain.{IsPlainLine, PlainLine};
ghost use Rattle.diva_lab_args.specs.Commands.{lab_leaves};
ghost use Rattle.diva_lab_args.specs.Lab.{lab_job_of, lab_job_on, lab_of};
ghost use Rattle.diva_lab_args.specs.Rate.{is_dashed};

use crate::commands::lab_matches;
use crate::draw::{DrawOptions, Format, drawing, drawn};
use crate::inject::{InjectOptions, inject};
use crate::judge::{JudgeOptions, judge};
use crate::rate::{FileNames, rate};
use clap::ArgMatches;
use diva_args::parts::or_usage;
use diva_args::{ArgsFault, Job, job_named};
use std::alloc::Global;

/// A command of the workbench with its options.
#[derive(Drop)]
pub enum LabJob {
    /// A command of `diva`.
    Diva(Job),
    /// `log IMAGE` or `draw IMAGE`: runs an image, and shows what becomes of each claim in each cycle.
    Draw(DrawOptions),
    /// `judge IMAGE LOG`: judges what a log says of each instruction of an image.
    Judge(JudgeOptions),
    /// `inject IMAGE COUNT SEED`: runs an image with faults that follow a seed, and says of each what became of the run.
    Inject(InjectOptions),
    /// `rate FILE..`: counts what lines of such runs say, in one file or more. The names are the words as they are, each of which may be
    /// empty or `-`. A longer name that begins with `-` has to stand after the word `--`.
    Rate(FileNames),
}

/// The job that the words ask for of the workbench. `words` are those after the program's name: `log`, `draw`, `judge` or `inject` with
/// their positionals and options, `rate` with the names of files, or any words of `diva`.
///
/// The error is `Usage` where the words are not a valid command line, and `Memory` where memory runs out.
#[tactic(auto, using(crate::proofs::LabLaw::plain_lab_line, crate::proofs::RateLaw::plain_rate_line, crate::proofs::RateLaw::rate_line_round_end), unfolding(crate::specs::Lab::lab_of))]
pub fn read_lab_words(alloc: Global, words: &[&str]) -> Result<LabJob, ArgsFault>
    ensures job { IfOk result (λ job. lab_of (map (λ w. w.now) words.now) ≡ Some job) }
    ensures usage { result ≡ Err ArgsFault.Usage
        → lab_of (map (λ w. w.now) words.now) ≡ None }

    // A plain line is read off its words, and only the rules on values refuse it.
    ensures plain { (line : PlainLine) → IsPlainLine lab_leaves (map (λ w. w.now) words.now) line
        → lab_of (map (λ w. w.now) words.now) ≡ lab_job_on line }

    // The words after `rate` are the names, if none looks like an option; any words after `--` are names too.
    ensures names { (names : List Text) → list_any is_dashed names ≡ false → 1 ≤ length names
        → map (λ w. w.now) words.now ≡ codes "rate" ∷ names
        → lab_of (map (λ w. w.now) words.now) ≡ Some (LabJob.Rate names) }
    ensures any_names { (names others : List Text) → list_any is_dashed names ≡ false → 1 ≤ length (names ++ others)
        → map (λ w. w.now) words.now ≡ codes "rate" ∷ names ++ codes "--" ∷ others
        → lab_of (map (λ w. w.now) words.now) ≡ Some (LabJob.Rate (names ++ others)) }
{
    match words.split_first() {
        Some((first, names)) if *first == "rate" => Ok(LabJob::Rate(rate(alloc, names)?)),
        _ => job(alloc, &lab_matches(alloc, words)?),
    }
}

/// The job of the subcommand that the matches entered.
fn job(alloc: Global, matches: &ArgMatches<'_>) -> Result<LabJob, ArgsFault>
    ensures { Reads (option_and_then lab_job_of (subcommand_rows_of matches.now)) result }
{
    let (name, found) = or_usage(matches.subcommand())?;
    match name {
        "log" => drawn(alloc, found, Some(Format::Log)),
        "draw" => drawn(alloc, found, drawing(found)),
        "judge" => Ok(LabJob::Judge(judge(alloc, found)?)),
        "inject" => Ok(LabJob::Inject(inject(alloc, found)?)),
        _ => Ok(LabJob::Diva(job_named(alloc, name, found)?)),
    }
}
