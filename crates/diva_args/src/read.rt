// From words to a job.
ghost use Rattle.std.specs.Prelude.{◌≡◌, IfOk, None, Some, map, option_and_then};
ghost use Rattle.clap.specs.Walk.{rows_of};
ghost use Rattle.clap.specs.Words.{found_of, subcommand_rows_of};
ghost use Rattle.diva_args.specs.Command.{leaves};
ghost use Rattle.diva_args.specs.Fault.{Reads};
ghost use Rattle.diva_args.specs.Line.{campaign_from, command_of, debug_from, duo_from, job_from, job_of, migrate_from};
ghost use Rattle.diva_args.specs.Line.{run_from, soak_from, tape_from, values_of};
ghost use Rattle.diva_args.specs.Plain.{IsPlainLine, PlainLine, job_on};

use crate::campaign::CampaignOptions;
use crate::fault::ArgsFault;
use crate::job::{
    DebugOptions, DuoOptions, Job, MigrateOptions, RunOptions, SoakOptions, TapeOptions,
};
use crate::parts::{
    config, file_of, is_set, matches, number_of, or_usage, room, setup, text_of, width,
};
use crate::rows::{CAMPAIGN_CYCLES, CYCLES, LAST, LENGTH, SEED};
use crate::values::{dump, hart_core, liar};
use clap::ArgMatches;
use std::alloc::Global;

/// The job that the words ask for. `words` are those after the program's name.
///
/// The error is `Usage` where the words are not a valid command line, as help words are not, and `Memory` where memory
/// runs out.
#[tactic(auto, using(crate::proofs::PlainLaw::plain_line, crate::proofs::ReadLemmas::diva_is_exact), unfolding(crate::specs::Line::command_of))]
pub fn read_words(alloc: Global, words: &[&str]) -> Result<Job, ArgsFault>
    ensures job { IfOk result (λ job. command_of (map (λ w. w.now) words.now) ≡ Some job) }
    ensures usage { result ≡ Err ArgsFault.Usage
        → command_of (map (λ w. w.now) words.now) ≡ None }

    // A plain line is read off its words, and only the rules on values refuse it.
    ensures plain { (line : PlainLine) → IsPlainLine leaves (map (λ w. w.now) words.now) line
        → command_of (map (λ w. w.now) words.now) ≡ job_on line }
{
    let matches = matches(alloc, &[], words)?;
    job(alloc, &matches)
}

/// The job of the subcommand that the matches entered.
fn job(alloc: Global, matches: &ArgMatches<'_>) -> Result<Job, ArgsFault>
    ensures { Reads (option_and_then job_of (subcommand_rows_of matches.now)) result }
{
    let (name, found) = or_usage(matches.subcommand())?;
    job_named(alloc, name, found)
}

/// The job of the command of this name, by its matches. The error is `Usage` if there is no such command of `diva`, or no such job, and
/// `Memory` if memory runs out.
#[tactic(auto, unfolding(crate::specs::Line::job_from))]
pub fn job_named(alloc: Global, name: &str, found: &ArgMatches<'_>) -> Result<Job, ArgsFault>
    ensures { Reads (job_from name.now (values_of (rows_of (found_of found.now)))) result }
{
    match name {
        "run" => Ok(Job::Run(run(alloc, found)?)),
        "tape" => Ok(Job::Tape(tape(alloc, found)?)),
        "duo" => Ok(Job::Duo(duo(alloc, found)?)),
        "debug" => Ok(Job::Debug(debug(alloc, found)?)),
        "asm" => Ok(Job::Asm(file_of(alloc, found, "SRC")?)),
        "dis" => Ok(Job::Dis(file_of(alloc, found, "IMAGE")?)),
        "migrate" => Ok(Job::Migrate(migrate(alloc, found)?)),
        "soak" => Ok(Job::Soak(soak(found)?)),
        "campaign" => Ok(Job::Campaign(campaign(alloc, found)?)),
        _ => Err(ArgsFault::Usage),
    }
}

/// `run IMAGE` with its options.
#[tactic(auto, unfolding(crate::specs::Line::run_from))]
fn run(alloc: Global, found: &ArgMatches<'_>) -> Result<RunOptions, ArgsFault>
    ensures { Reads (run_from (values_of (rows_of (found_of found.now)))) result }
{
    let setup = setup(alloc, found, width(found))?;
    let cycles = or_usage(number_of(found, &CYCLES))?;
    let dump = or_usage(dump(text_of(found, "dump")))?;
    let liar = or_usage(liar(text_of(found, "liar")))?;
    Ok(RunOptions {
        setup,
        cycles,
        trace: is_set(found, "trace"),
        dump,
        liar,
    })
}

/// `tape IMAGE` with its options.
#[tactic(auto, unfolding(crate::specs::Line::tape_from))]
fn tape(alloc: Global, found: &ArgMatches<'_>) -> Result<TapeOptions, ArgsFault>
    ensures { Reads (tape_from (values_of (rows_of (found_of found.now)))) result }
{
    let setup = setup(alloc, found, width(found))?;
    let cycles = or_usage(number_of(found, &CYCLES))?;
    Ok(TapeOptions { setup, cycles })
}

/// `duo IMAGE` with its options.
#[tactic(auto, unfolding(crate::specs::Line::duo_from))]
fn duo(alloc: Global, found: &ArgMatches<'_>) -> Result<DuoOptions, ArgsFault>
    ensures { Reads (duo_from (values_of (rows_of (found_of found.now)))) result }
{
    let image = file_of(alloc, found, "IMAGE")?;
    let room = or_usage(room(found))?;
    let core = or_usage(hart_core(text_of(found, "core")))?;
    let config = or_usage(config(found, width(found), Some(1)))?;
    let cycles = or_usage(number_of(found, &CYCLES))?;
    let dump = or_usage(dump(text_of(found, "dump")))?;
    Ok(DuoOptions {
        image,
        room,
        core,
        config,
        cycles,
        dump,
    })
}

/// `debug IMAGE COMMANDS` with its options.
#[tactic(auto, unfolding(crate::specs::Line::debug_from))]
fn debug(alloc: Global, found: &ArgMatches<'_>) -> Result<DebugOptions, ArgsFault>
    ensures { Reads (debug_from (values_of (rows_of (found_of found.now)))) result }
{
    let setup = setup(alloc, found, Some(1))?;
    let commands = file_of(alloc, found, "COMMANDS")?;
    Ok(DebugOptions { setup, commands })
}

/// `migrate IMAGE` with its option.
#[tactic(auto, unfolding(crate::specs::Line::migrate_from))]
fn migrate(alloc: Global, found: &ArgMatches<'_>) -> Result<MigrateOptions, ArgsFault>
    ensures { Reads (migrate_from (values_of (rows_of (found_of found.now)))) result }
{
    let image = file_of(alloc, found, "IMAGE")?;
    let room = or_usage(room(found))?;
    Ok(MigrateOptions { image, room })
}

/// `soak SEED LENGTH`.
#[tactic(auto, unfolding(crate::specs::Line::soak_from))]
fn soak(found: &ArgMatches<'_>) -> Result<SoakOptions, ArgsFault>
    ensures { Reads (soak_from (values_of (rows_of (found_of found.now)))) result }
{
    let seed = or_usage(number_of(found, &SEED))?.get();
    let instructions = or_usage(number_of(found, &LENGTH))?;
    Ok(SoakOptions { seed, instructions })
}

/// `campaign IMAGE LAST` with its option.
#[tactic(auto, unfolding(crate::specs::Line::campaign_from))]
fn campaign(alloc: Global, found: &ArgMatches<'_>) -> Result<CampaignOptions, ArgsFault>
    ensures { Reads (campaign_from (values_of (rows_of (found_of found.now)))) result }
{
    let image = file_of(alloc, found, "IMAGE")?;
    let last = or_usage(number_of(found, &LAST))?;
    let cycles = or_usage(number_of(found, &CAMPAIGN_CYCLES))?;
    Ok(CampaignOptions {
        image,
        last,
        cycles,
    })
}
