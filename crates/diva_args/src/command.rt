// The table of commands, and the command line as `clap` sees it.
ghost use Rattle.std.specs.Prelude.{◌≡◌, ◌++◌, codes, false, IfOk, map};
ghost use Rattle.clap.specs.Walk.{rule_of};
ghost use Rattle.clap.specs.Simple.{app_of, shape_of};
ghost use Rattle.clap.specs.declared.builder.Command.TheViews.{out-Command as fields_of};
ghost use Rattle.diva_args.specs.Command.{app_with, flag_rule, leaf_shape, leaves, option_rule, positional_rule, top_app};
ghost use Rattle.diva_args.specs.Command.{with_subcommands};
ghost use Rattle.diva_args.specs.Table.{leaf_of};

use clap::{Arg, ArgAction, Command};
use std::alloc::{AllocError, Global};

/// A command: its name, the ids of its positionals in order, the names of its options, and those of its flags.
pub struct Leaf {
    /// The word that the command line begins with.
    pub name: &'static str,
    /// The ids of its positionals, in the order in which they stand.
    pub positionals: &'static [&'static str],
    /// The names of its options, each of which takes a value.
    pub options: &'static [&'static str],
    /// The names of its flags.
    pub flags: &'static [&'static str],
}

/// The commands of `diva`.
static LEAVES: [Leaf; 9] = [
    Leaf {
        name: "run",
        positionals: &["IMAGE"],
        options: &[
            "core", "script", "tape", "width", "window", "stores", "watchdog", "port", "room",
            "cycles", "dump", "liar",
        ],
        flags: &["trace"],
    },
    Leaf {
        name: "tape",
        positionals: &["IMAGE"],
        options: &[
            "core", "script", "tape", "width", "window", "stores", "watchdog", "port", "room",
            "cycles",
        ],
        flags: &[],
    },
    Leaf {
        name: "duo",
        positionals: &["IMAGE"],
        options: &[
            "core", "width", "window", "stores", "watchdog", "room", "cycles", "dump",
        ],
        flags: &[],
    },
    Leaf {
        name: "debug",
        positionals: &["IMAGE", "COMMANDS"],
        options: &[
            "core", "script", "tape", "window", "stores", "watchdog", "port", "room",
        ],
        flags: &[],
    },
    Leaf {
        name: "asm",
        positionals: &["SRC"],
        options: &[],
        flags: &[],
    },
    Leaf {
        name: "dis",
        positionals: &["IMAGE"],
        options: &[],
        flags: &[],
    },
    Leaf {
        name: "migrate",
        positionals: &["IMAGE"],
        options: &["room"],
        flags: &[],
    },
    Leaf {
        name: "soak",
        positionals: &["SEED", "LENGTH"],
        options: &[],
        flags: &[],
    },
    Leaf {
        name: "campaign",
        positionals: &["IMAGE", "LAST"],
        options: &["cycles"],
        flags: &[],
    },
];

/// The whole command with the commands of `diva` and then those of `more`, over words without the program's name. The error: out of
/// memory.
pub(crate) fn command<'a>(alloc: Global, more: &[Leaf]) -> Result<Command<'a>, AllocError>
    ensures { IfOk result (λ c. app_of c ≡ app_with (leaves ++ map leaf_of more.now)) }
{
    let command = with_leaves(alloc, bare(alloc), &LEAVES)?;
    with_leaves(alloc, command, more)
}

/// The command with no subcommand yet. Help words have no meaning in it.
fn bare<'a>(alloc: Global) -> Command<'a>
    ensures { app_of result ≡ top_app (codes "diva") }
{
    Command::new(alloc, "diva")
        .no_binary_name(true)
        .disable_help_flag(true)
        .disable_help_subcommand(true)
        .subcommand_required(true)
}

/// The command with each of the leaves as a subcommand.
fn with_leaves<'a>(
    alloc: Global,
    mut command: Command<'a>,
    leaves: &[Leaf],
) -> Result<Command<'a>, AllocError>
    ensures { IfOk result (λ c. app_of c
        ≡ with_subcommands (app_of command.entry) (map leaf_of leaves.now)) }
{
    for leaf in leaves {
        command = command.subcommand(subcommand(alloc, leaf)?)?;
    }
    Ok(command)
}

/// The subcommand of a leaf.
fn subcommand<'a>(alloc: Global, leaf: &Leaf) -> Result<Command<'a>, AllocError>
    ensures shape { IfOk result (λ c. shape_of c ≡ leaf_shape (leaf_of leaf.now)) }
    ensures local { IfOk result (λ c. (fields_of c).has_globals ≡ false) }
{
    let mut command = Command::new(alloc, leaf.name);
    for id in leaf.positionals {
        command = command.arg(positional(alloc, id))?;
    }
    for name in leaf.options {
        command = command.arg(option(alloc, name))?;
    }
    for switch in leaf.flags {
        command = command.arg(flag(alloc, switch))?;
    }
    Ok(command)
}

/// A word that has to be given.
fn positional<'a>(alloc: Global, id: &'a str) -> Arg<'a>
    ensures rule { rule_of result ≡ positional_rule id.entry.now }
    ensures local { result.global ≡ false }
{
    Arg::new(alloc, id).required(true)
}

/// `--name VALUE`
fn option<'a>(alloc: Global, name: &'a str) -> Arg<'a>
    ensures rule { rule_of result ≡ option_rule name.entry.now }
    ensures local { result.global ≡ false }
{
    Arg::new(alloc, name).long(name)
}

/// `--name`
fn flag<'a>(alloc: Global, name: &'a str) -> Arg<'a>
    ensures rule { rule_of result ≡ flag_rule name.entry.now }
    ensures local { result.global ≡ false }
{
    Arg::new(alloc, name).long(name).action(ArgAction::SetTrue)
}
