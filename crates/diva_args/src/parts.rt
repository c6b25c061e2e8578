//! What words are read by: the commands that they can begin with, and the values of positionals, options and flags.
//!
//! `read_words` reads the words of `diva` by these parts. Another program can have commands beside those of `diva`, in a table of
//! its own, and read their words by the same rules.
ghost use Rattle.std.specs.Prelude.{◌≡◌, ◌++◌, IfOk, IfSome, None, Some, map, option_map};
ghost use Rattle.clap.specs.Walk.{rows_of};
ghost use Rattle.clap.specs.Words.{found_of, subcommand_rows_of};
ghost use Rattle.diva_args.specs.Command.{IsExact, leaves};
ghost use Rattle.diva_args.specs.Fault.{Reads};
ghost use Rattle.diva_args.specs.Line.{config_from, room_from, setup_from, taken, values_of};
ghost use Rattle.diva_args.specs.Options.{IsRoomBehind};
ghost use Rattle.diva_args.specs.Rows.{machine_row, port_row, width_row};
ghost use Rattle.diva_args.specs.Table.{leaf_of};
ghost use Rattle.diva_args.specs.Values.{is_set_by, number_of};
ghost use Rattle.diva_core.specs.Machine.{IsConfig};

pub use crate::command::Leaf;
use crate::command::command;
use crate::fault::ArgsFault;
use crate::file_name::FileName;
use crate::job::Setup;
use crate::ranged::Ranged;
use crate::rows::ROOM;
pub use crate::rows::{CYCLES, MOST_CYCLES, NumberRow, SEED};
use crate::values::core;
pub use crate::values::{liar, number_within};
use clap::ArgMatches;
use diva_core::Config;
use std::alloc::{AllocError, Global};

/// The matches of the words by the commands of `diva` and then those of `more`, if `clap` takes them.
///
/// The error is `Usage` if it does not, and `Memory` if memory runs out.
pub fn matches<'a>(
    alloc: Global,
    more: &[Leaf],
    words: &'a [&'a str],
) -> Result<ArgMatches<'a>, ArgsFault>
    requires { IsExact (leaves ++ map leaf_of more.now) }
    ensures matches { IfOk result (λ m. taken (leaves ++ map leaf_of more.now) (map (λ w. w.now) words.entry.now)
        ≡ subcommand_rows_of m) }
    ensures usage { result ≡ Err ArgsFault.Usage
        → taken (leaves ++ map leaf_of more.now) (map (λ w. w.now) words.entry.now) ≡ None }
{
    let command = command(alloc, more)?;
    Ok(command.try_get_matches_from(words)?)
}

/// What the words ask for. The error is `Usage` if they ask for nothing that there is.
pub fn or_usage<T>(asked: Option<T>) -> Result<T, ArgsFault>
    ensures { Reads asked result }
{
    match asked {
        Some(value) => Ok(value),
        None => Err(ArgsFault::Usage),
    }
}

/// The name of the file that a positional names. The error is `Usage` if the words have no such positional, and `Memory` if memory runs out.
pub fn file_of(alloc: Global, found: &ArgMatches<'_>, id: &str) -> Result<FileName, ArgsFault>
    ensures { Reads (values_of (rows_of (found_of found.now)) id.now) result }
{
    let name = or_usage(text_of(found, id))?;
    Ok(FileName::new(alloc, name)?)
}

/// The number of a row; `None` if the words spell none in its range, or give none and the row has no default.
pub fn number_of<const LEAST: u32, const MOST: u32>(
    found: &ArgMatches<'_>,
    row: &NumberRow<LEAST, MOST>,
) -> Option<Ranged<LEAST, MOST>>
    ensures { result ≡ number_of (record { word = row.now.word.now; least = LEAST; most = MOST; default = row.now.default })
        (values_of (rows_of (found_of found.now))) }
{
    match text_of(found, row.word) {
        Some(word) => number_within(word),
        None => Ranged::new(u64::from(row.default?)),
    }
}

/// What commands have in common that run an image, on a machine of this width. The error is `Usage` if a value breaks its rule, and
/// `Memory` if memory runs out.
#[tactic(auto, unfolding(crate::specs::Line::setup_from))]
pub fn setup(alloc: Global, found: &ArgMatches<'_>, width: Option<u32>) -> Result<Setup, ArgsFault>
    ensures setup { Reads (setup_from width (values_of (rows_of (found_of found.now)))) result }
    ensures width { IfOk result (λ setup. width ≡ Some setup.config.width) }
{
    let room = or_usage(room(found))?;
    let config = or_usage(config(found, width, port(found)))?;
    Ok(Setup {
        image: file_of(alloc, found, "IMAGE")?,
        room,
        core: core(alloc, text_of(found, "core"), text_of(found, "tape"))?,
        script: name_of(alloc, text_of(found, "script"))?,
        config,
    })
}

/// The numbers of a machine of this width and port, where they are in their ranges.
#[tactic(auto, using(crate::proofs::ConfigLemmas::no_config), unfolding(crate::specs::Line::config_from))]
pub(crate) fn config(
    found: &ArgMatches<'_>,
    width: Option<u32>,
    port: Option<u32>,
) -> Option<Config>
    ensures value { result ≡ config_from width port (values_of (rows_of (found_of found.now))) }
    ensures fits { IfSome result IsConfig }
    ensures width { IfSome result (λ config. width ≡ Some config.width) }
    ensures port { IfSome result (λ config. port ≡ Some config.port) }
{
    let usual = Config::default();
    Config::new(
        width?,
        machine_number(found, "window", usual.window())?,
        machine_number(found, "stores", usual.stores())?,
        machine_number(found, "watchdog", usual.limit())?,
    )?
    .with_port(port?)
}

/// The width that the words ask for: the default, if they name none. Its range is checked by `setup`.
pub fn width(found: &ArgMatches<'_>) -> Option<u32>
    ensures { result ≡ number_of width_row (values_of (rows_of (found_of found.now))) }
{
    machine_number(found, "width", Config::default().width())
}

/// The port that the words ask for.
fn port(found: &ArgMatches<'_>) -> Option<u32>
    ensures { result ≡ number_of port_row (values_of (rows_of (found_of found.now))) }
{
    machine_number(found, "port", Config::default().port())
}

/// A number of the machine, whose range `Config` has.
fn machine_number(found: &ArgMatches<'_>, word: &'static str, default: u32) -> Option<u32>
    ensures { result ≡ number_of (machine_row word.now default) (values_of (rows_of (found_of found.now))) }
{
    let row = NumberRow::<0, { u32::MAX }> {
        word,
        default: Some(default),
    };
    Some(number_of(found, &row)?.get())
}

/// How many bytes of memory follow those that an executable loads.
#[tactic(auto, unfolding(crate::specs::Line::room_from))]
pub(crate) fn room(found: &ArgMatches<'_>) -> Option<u32>
    ensures value { result ≡ room_from (values_of (rows_of (found_of found.now))) }
    ensures in_range { IfSome result IsRoomBehind }
{
    let room = number_of(found, &ROOM)?.get();
    if room % 4 == 0 { Some(room) } else { None }
}

/// The name that the words give for an option.
fn name_of(alloc: Global, text: Option<&str>) -> Result<Option<FileName>, AllocError>
    ensures { IfOk result (λ name. name ≡ option_map (λ text. text.now) text.entry) }
{
    match text {
        Some(text) => Ok(Some(FileName::new(alloc, text)?)),
        None => Ok(None),
    }
}

/// Whether the words have a flag of this name.
pub fn is_set(found: &ArgMatches<'_>, name: &str) -> bool
    ensures { result ≡ is_set_by (values_of (rows_of (found_of found.now)) name.now) }
{
    match text_of(found, name) {
        Some(text) => text == "true",
        None => false,
    }
}

/// The text that the words give for a positional, an option or a flag.
pub fn text_of<'a>(found: &ArgMatches<'a>, id: &str) -> Option<&'a str>
    ensures { option_map (λ text. text.now) result
        ≡ values_of (rows_of (found_of found.now)) id.now }
{
    found.get_str(id)
}
