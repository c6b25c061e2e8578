// The numbers that words of the workbench can give, a row for each.
ghost use Rattle.std.specs.Prelude.{◌≡◌};
ghost use Rattle.clap.specs.Walk.{rows_of};
ghost use Rattle.clap.specs.Words.{found_of};
ghost use Rattle.diva_args.specs.Line.{values_of};
ghost use Rattle.diva_lab_args.specs.Rows.{optional_of};

use clap::ArgMatches;
use diva_args::Ranged;
use diva_args::parts::{MOST_CYCLES, NumberRow, number_within, text_of};

/// `--from`: the first cycle that is drawn.
pub(crate) static FROM: NumberRow<1, MOST_CYCLES> = NumberRow {
    word: "from",
    default: Some(1),
};

/// `--to`: the last cycle that is drawn.
pub(crate) static TO: NumberRow<1, MOST_CYCLES> = NumberRow {
    word: "to",
    default: Some(MOST_CYCLES),
};

/// `COUNT`: how many faults a campaign has.
pub(crate) static COUNT: NumberRow<1, { u32::MAX }> = NumberRow {
    word: "COUNT",
    default: None,
};

/// `--first`: the number of the first fault that is run.
pub(crate) static FIRST: NumberRow<0, { u32::MAX }> = NumberRow {
    word: "first",
    default: Some(0),
};

/// `--stop`: after so many wrong lines of a log no further one is judged; there is no such number if the words give none.
pub(crate) static STOP: NumberRow<1, { u32::MAX }> = NumberRow {
    word: "stop",
    default: None,
};

/// `--from` of `inject`: the first cycle in which a fault can begin.
pub(crate) static EARLIEST: NumberRow<1, MOST_CYCLES> = NumberRow {
    word: "from",
    default: None,
};

/// `--to` of `inject`: the last cycle in which a fault can begin.
pub(crate) static LATEST: NumberRow<1, MOST_CYCLES> = NumberRow {
    word: "to",
    default: None,
};

/// The number of a row that need not be given: `Some(None)` if it is not, and `None` if the word spells none in its range.
pub(crate) fn optional<const LEAST: u32, const MOST: u32>(
    found: &ArgMatches<'_>,
    row: &NumberRow<LEAST, MOST>,
) -> Option<Option<Ranged<LEAST, MOST>>>
    ensures { result ≡ optional_of (record { word = row.now.word.now; least = LEAST; most = MOST; default = row.now.default })
        (values_of (rows_of (found_of found.now))) }
{
    match text_of(found, row.word) {
        Some(word) => Some(Some(number_within(word)?)),
        None => Some(None),
    }
}
