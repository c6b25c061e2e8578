// The words of `inject`.
ghost use Rattle.std.specs.Prelude.{◌≡◌, unwrap_or};
ghost use Rattle.clap.specs.Walk.{rows_of};
ghost use Rattle.clap.specs.Words.{found_of};
ghost use Rattle.diva_args.specs.Fault.{Reads};
ghost use Rattle.diva_args.specs.Line.{values_of};
ghost use Rattle.diva_lab_args.specs.Inject.{begin_from, inject_from, part_of};

use crate::choices::choice;
use crate::rows::{COUNT, EARLIEST, FIRST, LATEST, optional};
use clap::ArgMatches;
use diva_args::parts::{
    CYCLES, MOST_CYCLES, SEED, number_of, number_within, or_usage, setup, text_of, width,
};
use diva_args::{ArgsFault, Cycles, Ranged, Setup};
use diva_core::Field;
use diva_inject::{Choice, FaultModel, Part};
use std::alloc::Global;

/// How many faults a campaign has: 1 to 4,294,967,295.
pub type FaultCount = Ranged<1, { u32::MAX }>;

/// A cycle in which a fault can begin: 1 to 1,000,000,000.
pub type FaultCycle = Ranged<1, MOST_CYCLES>;

/// `inject IMAGE COUNT SEED` with its options.
#[derive(Drop)]
pub struct InjectOptions {
    /// The image, its core and its machine. A script is laid over what the core hands over in each run, and the fault over both.
    pub setup: Setup,
    /// `--cycles`: the cycles of each run at most; 1,000,000 by default.
    pub cycles: Cycles,
    /// `COUNT`: how many faults there are. Their numbers count from 0.
    pub count: FaultCount,
    /// `SEED`: the number that all faults follow, 0 to 4,294,967,295.
    pub seed: u32,
    /// `--model`: the models that a fault can be of, 1 to 6, with commas between them; `flip` by default.
    pub models: Choice<FaultModel, 6>,
    /// `--fields`: the fields that a fault can be in, 1 to 8, with commas between them; all of them by default, in their order.
    pub fields: Choice<Field, 8>,
    /// `--from`: the first cycle in which a fault can begin; `None` if the option is not given.
    pub from: Option<FaultCycle>,
    /// `--to`: the last cycle in which a fault can begin; `None` if the option is not given. If both are, it is not before the first.
    pub to: Option<FaultCycle>,
    /// `--part K/M`: of M parts of the faults the one that is run, K, which counts from 0; `0/1` by default, which is all of them.
    pub part: Part,
    /// `--first`: the number of the first fault that is run, 0 to 4,294,967,295; 0 by default.
    pub first: u32,
}

/// `inject IMAGE COUNT SEED` with its options.
#[tactic(auto, unfolding(crate::specs::Inject::inject_from))]
pub(crate) fn inject(alloc: Global, found: &ArgMatches<'_>) -> Result<InjectOptions, ArgsFault>
    ensures { Reads (inject_from (values_of (rows_of (found_of found.now)))) result }
{
    let setup = setup(alloc, found, width(found))?;
    let cycles = or_usage(number_of(found, &CYCLES))?;
    let count = or_usage(number_of(found, &COUNT))?;
    let seed = or_usage(number_of(found, &SEED))?.get();
    let models = or_usage(choice(text_or(found, "model", "flip")))?;
    let fields = or_usage(choice(text_or(found, "fields", ALL_FIELDS)))?;
    let (from, to) = or_usage(begin(found))?;
    let part = or_usage(part(text_or(found, "part", "0/1")))?;
    let first = or_usage(number_of(found, &FIRST))?.get();
    Ok(InjectOptions {
        setup,
        cycles,
        count,
        seed,
        models,
        fields,
        from,
        to,
        part,
        first,
    })
}

/// The fields of `--fields` if it is not given.
const ALL_FIELDS: &str = "pc,word,src1,src2,addr,value,next,end";

/// The text that the words give for an option, or what stands for it if they give none.
fn text_or<'a>(found: &ArgMatches<'a>, name: &str, default: &'a str) -> &'a str
    ensures { result.now ≡ unwrap_or (values_of (rows_of (found_of found.now)) name.now) default.entry.now }
{
    match text_of(found, name) {
        Some(text) => text,
        None => default,
    }
}

/// The first and the last cycle in which a fault can begin, as far as the words give them; `None` if one is out of its range, or
/// the last is before the first.
#[tactic(auto, unfolding(crate::specs::Inject::begin_from))]
fn begin(found: &ArgMatches<'_>) -> Option<(Option<FaultCycle>, Option<FaultCycle>)>
    ensures { result ≡ begin_from (values_of (rows_of (found_of found.now))) }
{
    let from = optional(found, &EARLIEST)?;
    let to = optional(found, &LATEST)?;
    match (from, to) {
        (Some(from), Some(to)) if to.get() < from.get() => None,
        _ => Some((from, to)),
    }
}

/// The part of the word `K/M`.
#[tactic(auto, using(crate::proofs::PartLemmas::no_slash), unfolding(crate::specs::Inject::part_of))]
fn part(word: &str) -> Option<Part>
    ensures { result ≡ part_of word.now }
{
    let (index, of) = word.split_once('/')?;
    let index = number_within::<0, { u32::MAX }>(index)?.get();
    let of = number_within::<0, { u32::MAX }>(of)?.get();
    Part::new(index, of)
}
