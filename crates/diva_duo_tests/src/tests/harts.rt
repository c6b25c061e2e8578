// Two harts that begin with a program, and cores that play tapes to them.
ghost use Rattle.std.specs.Prelude.{◌≡◌, ◌<◌, IfOk};

use diva_core::{Cause, Config, Diff, Field, FlushRow};
use diva_duo::{Action, Duo};
use diva_image::Image;
use std::alloc::Global;
use std::process::Abort;
use std::test::Fail;

/// How many claims a cycle accepts and how many are pending at most, how many stores a buffer holds, and the watchdog's limit.
pub(crate) type Numbers = [u32; 4];

/// The numbers that a machine has where none are given.
pub(crate) const USUAL: Numbers = [2, 16, 4, 64];

/// A flush: its cycle, how many instructions had committed, and the field in which a claim differed, with what was claimed and
/// what was due; nothing differed where the flush is the watchdog's.
pub(crate) type Flush = (u64, u64, Option<(Field, u32, u32)>);

/// Hart 0 goes on by an instruction.
pub(crate) const GO_0: Action = Action::Go(0);

/// Hart 1 goes on by an instruction.
pub(crate) const GO_1: Action = Action::Go(1);

/// A store of hart 0 goes to memory.
pub(crate) const DRAIN_0: Action = Action::Drain(0);

/// A store of hart 1 goes to memory.
pub(crate) const DRAIN_1: Action = Action::Drain(1);

/// Two harts over a memory of so many bytes that begins with these words, the first of which is their first instruction.
pub(crate) fn duo_of(alloc: Global, size: u32, words: &[u32], numbers: Numbers) -> Result<Duo, Fail>
    ensures { IfOk result (λ d. d.duo.cycles ≡ 0) }
{
    let mut bytes = Vec::new(alloc);
    for word in words {
        bytes.extend_from_slice(&word.to_le_bytes())?;
    }
    let image = Image::new(0, size, 0, bytes).ok_or("no image")?;
    let [width, window, stores, limit] = numbers;
    let config = Config::new(width, window, stores, limit).ok_or("a number out of its range")?;
    Ok(Duo::new(alloc, &image, config)?)
}

/// The word at an address of the shared memory, whose lowest byte comes first; a byte outside counts as 0.
pub(crate) fn word_at(duo: &Duo, addr: u32) -> u32 {
    u32::from_le_bytes([0, 1, 2, 3].map(|offset| duo.byte(addr.wrapping_add(offset)).unwrap_or(0)))
}

/// Compares the flushes of a hart, 0 or 1, whose watchdog has this limit.
pub(crate) fn compare_flushes(
    rt: &impl Abort,
    duo: &Duo,
    hart: u8,
    due: &[Flush],
    limit: u32,
    name: &str,
)
    requires { hart < 2 }
{
    let log = duo.log(hart);
    let silent = due.iter().filter(|(.., differs)| differs.is_none()).count();
    assert_eq!(rt;
        (log.len(), duo.flushes(hart), duo.silent(hart)),
        (due.len(), due.len() as u64, silent as u64),
        "{name}, hart {hart}"
    );
    for (row, flush) in log.iter().zip(due) {
        assert_eq!(rt; *row, row_of(flush, limit), "{name}, hart {hart}");
    }
}

/// The row of a flush.
fn row_of(&(cycle, at, differs): &Flush, limit: u32) -> FlushRow {
    let cause = match differs {
        Some((field, claimed, due)) => Cause::Differs(Diff {
            field,
            claimed,
            due,
        }),
        None => Cause::Silent(limit),
    };
    FlushRow { cycle, at, cause }
}
