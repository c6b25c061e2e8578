// The table of the commands that the workbench has besides those of `diva`, but for `rate`, which takes any number of words.
ghost use Rattle.std.specs.Prelude.{◌≡◌, IfOk, None, map};
ghost use Rattle.clap.specs.Words.{subcommand_rows_of};
ghost use Rattle.diva_args.specs.Line.{taken};
ghost use Rattle.diva_lab_args.specs.Commands.{lab_leaves};

use clap::ArgMatches;
use diva_args::ArgsFault;
use diva_args::parts::{Leaf, matches};
use std::alloc::Global;

/// The workbench's own commands.
static LEAVES: [Leaf; 4] = [
    Leaf {
        name: "log",
        positionals: &["IMAGE"],
        options: &[
            "core", "script", "tape", "width", "window", "stores", "watchdog", "port", "room",
            "cycles", "liar",
        ],
        flags: &[],
    },
    Leaf {
        name: "draw",
        positionals: &["IMAGE"],
        options: &[
            "core", "script", "tape", "width", "window", "stores", "watchdog", "port", "room",
            "cycles", "liar", "from", "to",
        ],
        flags: &[],
    },
    Leaf {
        name: "judge",
        positionals: &["IMAGE", "LOG"],
        options: &[
            "width", "window", "stores", "watchdog", "port", "room", "stop",
        ],
        flags: &["answer"],
    },
    Leaf {
        name: "inject",
        positionals: &["IMAGE", "COUNT", "SEED"],
        options: &[
            "core", "script", "tape", "width", "window", "stores", "watchdog", "port", "room",
            "cycles", "model", "fields", "from", "to", "part", "first",
        ],
        flags: &[],
    },
];

/// The matches of the words by all commands, if `clap` takes them. The error is `Usage` if it does not, and `Memory` if memory runs out.
pub(crate) fn lab_matches<'a>(
    alloc: Global,
    words: &'a [&'a str],
) -> Result<ArgMatches<'a>, ArgsFault>
    ensures matches { IfOk result (λ m. taken lab_leaves (map (λ w. w.now) words.entry.now)
        ≡ subcommand_rows_of m) }
    ensures usage { result ≡ Err ArgsFault.Usage
        → taken lab_leaves (map (λ w. w.now) words.entry.now) ≡ None }
{
    matches(alloc, &LEAVES, words)
}
