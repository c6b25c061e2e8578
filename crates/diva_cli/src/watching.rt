// What looks at a run turn by turn, and writes of it.
ghost use Rattle.std.specs.Prelude.{◌≡◌, ◌+◌, ◌<◌, ◌≤◌, ◌^◌, ℕ, length, OnOk};
ghost use Rattle.diva_tape.specs.TapeText.{IsList, list_text};
ghost use Rattle.diva_outside.specs.Sink.{PutsTo};
ghost use Rattle.diva_cli.specs.Changes.{change};
ghost use Rattle.diva_outside.specs.Lent.{lent};
ghost use Rattle.diva_machine.specs.Asked.{asked_over};
ghost use Rattle.diva_cli.specs.Lanes.{AreHonest, are_asked};
ghost use Rattle.diva_cli.specs.Watched.{DrivesSo, IsWatched, Watches, shown_by};

use crate::checking::turn_checked;
use crate::lanes::Lanes;
use diva_args::LanePlace;
use diva_core::{Claims, Core};
use diva_machine::Machine;
use diva_outside::{Sink, SinkFailed, put_line};
use diva_tape::tape_piece;
use diva_trace::write_commits;
use diva_vote::Lane;

/// What looks at a machine after each turn, and writes of it. Its one meaning is `puts`.
pub trait Watcher {
    ghost use Rattle.std.specs.Prelude.{ℕ, List, OnOk};
    ghost use Rattle.diva_outside.specs.Text.{Text};
    ghost use Rattle.diva_isa.specs.declared.record.Record.{Record};
    ghost use Rattle.diva_outside.specs.Lent.{lent};
    ghost use Rattle.diva_cli.specs.Changes.{change};
    ghost use Rattle.diva_cli.specs.Watched.{Seen, Watches, shown_by};

    /// Relates the watcher before a turn, what it sees of it, the watcher after, and the text that it puts.
    ghost puts: { Self → Seen → Self → Text → Type 0 };

    /// What is known of a list that was handed over, if the text of its turn was put whole.
    ghost says: { List Record → Type 0 };

    /// It can see so many turns more.
    ghost can: { Self → ℕ → Type 0 };

    /// Sees a machine after a turn, in which this list was handed over and `first` is the number of the first instruction that
    /// committed, and puts the text of it. If a put fails, a prefix of the text was appended. The machine has counted 2^62
    /// instructions at most.
    fn see<S: Sink>(
        &mut self,
        first: u64,
        m: &Machine,
        list: &Claims,
        sink: &mut S,
    ) -> Result<(), SinkFailed>
        requires can { can self.old 1 }
        requires first { first + length m.now.last ≡ m.now.timed.count }
        requires count { m.now.timed.count ≤ 2 ^ 62 }
        ensures can { (n : ℕ) → can self.old (n + 1) → can self.new n }
        ensures watches { Watches puts (change self.old self.new) (shown_by m.now first list.now)
            (lent S.account sink.old sink.new) result }
        ensures says { OnOk result (says list.now) };
}

/// Writes what is committed, as commit lines.
#[derive(Clone, Copy, Debug)]
pub struct CommitLines;

impl Watcher for CommitLines {
    ghost use Rattle.std.specs.Prelude.{⊤};
    ghost use Rattle.diva_cli.specs.Watched.{commit_lines};

    ghost puts = { commit_lines };

    ghost says = { λ list. ⊤ };

    ghost can = { λ watcher n. ⊤ };

    fn see<S: Sink>(
        &mut self,
        first: u64,
        m: &Machine,
        _list: &Claims,
        sink: &mut S,
    ) -> Result<(), SinkFailed> {
        write_commits(first, m.last(), sink)
    }
}

/// Writes what is handed over, as lines of a tape.
#[derive(Clone, Copy, Debug)]
pub struct TapeLines;

impl Watcher for TapeLines {
    ghost use Rattle.std.specs.Prelude.{⊤};
    ghost use Rattle.diva_tape.specs.TapeText.{IsList};
    ghost use Rattle.diva_cli.specs.Watched.{tape_lines};

    ghost puts = { tape_lines };

    ghost says = { IsList };

    ghost can = { λ watcher n. ⊤ };

    fn see<S: Sink>(
        &mut self,
        _first: u64,
        _m: &Machine,
        list: &Claims,
        sink: &mut S,
    ) -> Result<(), SinkFailed> {
        write_list(list, sink)
    }
}

/// Writes the line of a list: claim by claim, and then its line feed.
fn write_list<S: Sink>(list: &Claims, sink: &mut S) -> Result<(), SinkFailed>
    ensures put { PutsTo (lent S.account sink.old sink.new) (list_text list.now) result }
    ensures says { OnOk result (IsList list.now) }
{
    for (place, claim) in list.as_slice().iter().enumerate() {
        put_line(&tape_piece(claim, place == 0), sink)?;
    }
    sink.put(b"\n")
}

/// Takes turns with a machine and a core, and lets a watcher see each, until the machine ends, the budget's cycles are run or the
/// sink fails; after that no core is asked. The cycles that have run and the budget may come to 2^60 at most, and the watcher can see
/// as many turns.
pub fn watch<C: Core, W: Watcher, S: Sink>(
    m: &mut Machine,
    core: &mut C,
    budget: u64,
    watcher: &mut W,
    sink: &mut S,
) -> Result<(), SinkFailed>
    requires cycles { m.old.timed.cycles + budget ≤ 2 ^ 60 }
    requires can { (n : ℕ) → n ≤ budget → W.can watcher.old n }
    ensures { DrivesSo C.gives (change m.old m.new) (change core.old core.new)
        (λ lists. IsWatched W.puts W.says budget (change m.old.timed m.new.timed) (change watcher.old watcher.new) lists
        (lent S.account sink.old sink.new) result) }
{
    watch_checked(m, core, budget, None, &mut Lanes::own(), watcher, sink)
}

/// The same; where a place is given, three lanes vote, and the one in that place is the liar.
pub(crate) fn watch_checked<C: Core, W: Watcher, S: Sink, L: Lane>(
    m: &mut Machine,
    core: &mut C,
    budget: u64,
    liar: Option<LanePlace>,
    lanes: &mut Lanes<L>,
    watcher: &mut W,
    sink: &mut S,
) -> Result<(), SinkFailed>
    requires cycles { m.old.timed.cycles + budget ≤ 2 ^ 60 }
    requires can { (n : ℕ) → n ≤ budget → W.can watcher.old n }
    requires honest { AreHonest L.honest lanes.old }
    ensures { DrivesSo C.gives (change m.old m.new) (change core.old core.new)
        (λ lists. IsWatched W.puts W.says budget (change m.old.timed m.new.timed) (change watcher.old watcher.new) lists
        (lent S.account sink.old sink.new) result
        × are_asked L.says lanes.old lanes.new liar (asked_over m.old.timed lists)) }
{
    if !m.goes_on() {
        return Ok(());
    }
    let mut list = Claims::new();
    for _ in 0..budget {
        let first = m.count();
        turn_checked(m, core, &mut list, liar, lanes);
        watcher.see(first, m, &list, sink)?;
        if !m.goes_on() {
            return Ok(());
        }
    }
    Ok(())
}
