// One line of a log, judged by the machine.
ghost use Rattle.std.specs.Prelude.{◌≡◌, ◌+◌, ◌≤◌, ◌^◌, [], ◌∷◌, true};
ghost use Rattle.diva_isa.specs.State.{goes_on};
ghost use Rattle.diva_isa.specs.Step.{record_of};
ghost use Rattle.diva_core.specs.Timed.{depth};
ghost use Rattle.diva_claims.specs.Judged.{HasJudged, Rests};
ghost use Rattle.diva_claims.specs.Wrong.{first_wrong};

use diva_claims::{LineCore, Said, Wrong};
use diva_core::Claims;
use diva_machine::{DEPTH, Machine, turn};

/// Judges the line of the next instruction: what is wrong with it, if anything is. The machine begins at rest and goes on. It is
/// driven by the line alone until its next instruction is counted, and it rests again: a flush came if and only if the line is wrong.
/// The cycles that have run, and those that the watchdog allows for one instruction, may come to 2^60 at most.
pub fn judge_line(m: &mut Machine, said: Said) -> Option<Wrong>
    requires rests { Rests m.old.timed }
    requires goes_on { goes_on m.old.timed.arch ≡ true }
    requires cycles { m.old.timed.cycles + (m.old.timed.config.limit + depth) ≤ 2 ^ 60 }
    ensures judged { HasJudged m.old.timed m.new.timed said }
    ensures wrong { result ≡ first_wrong said (record_of m.old.timed.arch) }
    // The record that was committed.
    ensures shows { m.new.last ≡ record_of m.old.timed.arch ∷ [] }
    ensures outvoted { m.new.outvoted ≡ m.old.outvoted }
{
    let flushes = m.flushes();
    count_next(m, said);
    if m.flushes() == flushes {
        None
    } else {
        said.first_wrong(&m.last()[0])
    }
}

/// Takes turns until the next instruction is counted; its line's claim is all that is handed over.
fn count_next(m: &mut Machine, said: Said)
    requires rests { Rests m.old.timed }
    requires goes_on { goes_on m.old.timed.arch ≡ true }
    requires cycles { m.old.timed.cycles + (m.old.timed.config.limit + depth) ≤ 2 ^ 60 }
    ensures judged { HasJudged m.old.timed m.new.timed said }
    ensures shows { m.new.last ≡ record_of m.old.timed.arch ∷ [] }
    ensures outvoted { m.new.outvoted ≡ m.old.outvoted }
{
    let count = m.count();
    let mut core = LineCore::new(said);
    let mut list = Claims::new();
    for _ in 0..u64::from(m.limit()) + DEPTH {
        turn(m, &mut core, &mut list);
        if m.count() != count {
            return;
        }
    }
}
