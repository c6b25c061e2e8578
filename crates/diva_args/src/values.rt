// The values of options as cores, numbers, parts of memory and places of voting lanes.
ghost use Rattle.std.specs.Prelude.{◌≡◌, None, Some, option_map};
ghost use Rattle.diva_args.specs.Fault.{Reads};
ghost use Rattle.diva_args.specs.Values.{core_of, cores, dump_of, dump_range_of, hart_core_of, hart_cores, liar_of, named, number_in_range, place_numbered};

use crate::fault::ArgsFault;
use crate::file_name::FileName;
use crate::job::{CoreChoice, DumpRange, HartCore, LanePlace, MOST_DUMPED};
use crate::ranged::Ranged;
use diva_outside::{decimal, hex};
use std::alloc::Global;

/// The core of `--core` and `--tape`: the program's own where neither is given.
///
/// The error is `Usage` where `name` is not the name of a core, or a tape is given with another core than `tape`, or
/// none with that one; and `Memory` where memory runs out.
pub(crate) fn core(
    alloc: Global,
    name: Option<&str>,
    tape: Option<&str>,
) -> Result<CoreChoice, ArgsFault>
    ensures { Reads (core_of (option_map (λ text. text.now) name.entry) (option_map (λ text. text.now) tape.entry)) result }
{
    match (name, tape) {
        (None, None) => Ok(CoreChoice::Own),
        (Some(name), None) => named_core(name).ok_or(ArgsFault::Usage),
        (Some("tape"), Some(tape)) => Ok(CoreChoice::Tape(FileName::new(alloc, tape)?)),
        (_, Some(_)) => Err(ArgsFault::Usage),
    }
}

/// The core of that name, for one that takes no tape.
fn named_core(name: &str) -> Option<CoreChoice>
    ensures { result ≡ named cores name.now }
{
    match name {
        "own" => Some(CoreChoice::Own),
        "lockstep" => Some(CoreChoice::Lockstep),
        "scalar" => Some(CoreChoice::Scalar),
        "silent" => Some(CoreChoice::Silent),
        "flood" => Some(CoreChoice::Flood),
        "echo" => Some(CoreChoice::Echo),
        "noise" => Some(CoreChoice::Noise),
        _ => None,
    }
}

/// The core of `--core` for harts: `scalar` where none is given, and `None` where the word is not the name of such a core.
pub(crate) fn hart_core(name: Option<&str>) -> Option<HartCore>
    ensures { result ≡ hart_core_of (option_map (λ text. text.now) name.entry) }
{
    match name {
        Some(name) => named_hart_core(name),
        None => Some(HartCore::Scalar),
    }
}

/// The core of that name, for one that a hart takes.
fn named_hart_core(name: &str) -> Option<HartCore>
    ensures { result ≡ named hart_cores name.now }
{
    match name {
        "scalar" => Some(HartCore::Scalar),
        "lockstep" => Some(HartCore::Lockstep),
        "silent" => Some(HartCore::Silent),
        _ => None,
    }
}

/// The number from `LEAST` to `MOST` that the word spells.
pub fn number_within<const LEAST: u32, const MOST: u32>(word: &str) -> Option<Ranged<LEAST, MOST>>
    ensures { result ≡ number_in_range LEAST MOST word.now }
{
    Ranged::new(decimal(word.as_bytes())?)
}

/// The memory of `--dump`: `Some(None)` where the option is not given, and `None` where the word is not `ADDR:LEN`.
pub(crate) fn dump(word: Option<&str>) -> Option<Option<DumpRange>>
    ensures { result ≡ dump_of (option_map (λ text. text.now) word.entry) }
{
    match word {
        Some(word) => Some(Some(dump_range(word)?)),
        None => Some(None),
    }
}

/// The memory of the word `ADDR:LEN`.
#[tactic(auto, using(crate::proofs::ValueLemmas::no_colon), unfolding(crate::specs::Values::dump_range_of))]
fn dump_range(word: &str) -> Option<DumpRange>
    ensures { result ≡ dump_range_of word.now }
{
    let (addr, len) = word.split_once(':')?;
    let addr = hex(addr.as_bytes())?;
    let len = number_within::<1, MOST_DUMPED>(len)?.get();
    if u64::from(addr) + u64::from(len) <= 1 << 32 {
        Some(DumpRange { addr, len })
    } else {
        None
    }
}

/// The place of `--liar`: `Some(None)` where the option is not given, and `None` where the word is not 0, 1 or 2.
#[tactic(auto, unfolding(crate::specs::Values::liar_of))]
pub fn liar(word: Option<&str>) -> Option<Option<LanePlace>>
    ensures { result ≡ liar_of (option_map (λ text. text.now) word.entry) }
{
    match word {
        Some(word) => Some(Some(place_numbered(number_within::<0, 2>(word)?.get()))),
        None => Some(None),
    }
}

/// The place of this number, which is 0, 1 or 2.
fn place_numbered(number: u32) -> LanePlace
    ensures { result ≡ place_numbered number }
{
    match number {
        0 => LanePlace::First,
        1 => LanePlace::Second,
        _ => LanePlace::Third,
    }
}
