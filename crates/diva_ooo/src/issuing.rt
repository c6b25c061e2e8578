// Waiting instructions begin to run.
ghost use Rattle.std.specs.Prelude.{◌≡◌, ◌<◌, length, slice_get, slice_set, take, Some, true};
ghost use Rattle.diva_decode.specs.Table.{HasRegisters, row_of};
ghost use Rattle.diva_isa.specs.Kind.{kind};
ghost use Rattle.diva_isa.specs.Step.{HasRegister, effect_of};
ghost use Rattle.diva_ahead.specs.Effects.{done_by};
ghost use Rattle.diva_ooo.specs.WindowEntry.{WindowEntry};
ghost use Rattle.diva_ooo.specs.Issue.{is_waiting, issued, started};

use crate::flight::Flight;
use crate::window::Window;
use diva_ahead::Ahead;
use diva_core::View;
use diva_decode::Instr;
use diva_isa::{Due, Effect, Kind, due_as, due_fetched, kind_of};

/// At most two waiting entries begin to run, oldest first.
pub(crate) fn issue(window: &mut Window, ahead: &Ahead, view: &View<'_>)
    ensures { window.new ≡ issued ahead.now view.now window.old }
{
    let mut begun: u8 = 0;
    let mut candidates = window.candidate_places();
    let mut at = candidates.first();
    while at < window.len() {
        if window.is_ready(at) {
            begin_at(window, at, ahead, view);
            begun += 1;
            if begun == 2 {
                return;
            }
        }
        candidates.remove(at);
        at = candidates.first();
    }
}

/// Begins to run the entry at a place, which waits.
///
/// The kinds that programs have most of are told apart: what is done for such a kind is then one piece, down to its entry. It
/// has a `Flight` of its own, which need not lie in memory as one does that is handed to calls.
fn begin_at(window: &mut Window, at: usize, ahead: &Ahead, view: &View<'_>)
    requires place { at < length window.old }
    requires waits { (e : WindowEntry) → slice_get window.old at ≡ Some e → is_waiting e.progress ≡ true }
    ensures started { (e : WindowEntry) → slice_get window.old at ≡ Some e
        → window.new ≡ slice_set window.old at (started ahead.now view.now (take at window.old) e) }
    ensures length { length window.new ≡ length window.old }
{
    let entry = window.entry(at);
    let (Some(word), Some(i)) = (entry.word, entry.decoded) else {
        begin_any(window, at, ahead, view);
        return;
    };
    match kind_of(i.op) {
        Kind::OpImm => begin_as(window, at, ahead, view, word, i, Kind::OpImm),
        Kind::OpReg => begin_as(window, at, ahead, view, word, i, Kind::OpReg),
        Kind::Jal => begin_as(window, at, ahead, view, word, i, Kind::Jal),
        Kind::Branch => begin_as(window, at, ahead, view, word, i, Kind::Branch),
        Kind::Load(width) => begin_as(window, at, ahead, view, word, i, Kind::Load(width)),
        Kind::Store(width) => begin_as(window, at, ahead, view, word, i, Kind::Store(width)),
        _ => begin_any(window, at, ahead, view),
    }
}

/// The same of an entry whose word says an instruction, the kind of which is known.
#[inline(always)]
#[tactic(auto, unfolding(crate::specs::Issue::started))]
fn begin_as(
    window: &mut Window,
    at: usize,
    ahead: &Ahead,
    view: &View<'_>,
    word: u32,
    i: Instr,
    which: Kind,
)
    requires place { at < length window.old }
    requires waits { (e : WindowEntry) → slice_get window.old at ≡ Some e → is_waiting e.progress ≡ true }
    requires word { (e : WindowEntry) → slice_get window.old at ≡ Some e → e.word ≡ Some word }
    requires says { row_of word ≡ Some i }
    requires kind { kind i.op ≡ which }
    requires registers { HasRegisters i }
    ensures started { (e : WindowEntry) → slice_get window.old at ≡ Some e
        → window.new ≡ slice_set window.old at (started ahead.now view.now (take at window.old) e) }
    ensures length { length window.new ≡ length window.old }
{
    let flight = Flight::of(window, at, &*ahead, &*view);
    let due = due_as(&flight, word, &i, which);
    window.begin(at, due.record, done(&due));
}

/// The same, whatever the word of the entry says.
#[inline(never)]
#[tactic(auto, unfolding(crate::specs::Issue::started), using(crate::proofs::Knowing::decoded_kept))]
fn begin_any(window: &mut Window, at: usize, ahead: &Ahead, view: &View<'_>)
    requires place { at < length window.old }
    requires waits { (e : WindowEntry) → slice_get window.old at ≡ Some e → is_waiting e.progress ≡ true }
    ensures started { (e : WindowEntry) → slice_get window.old at ≡ Some e
        → window.new ≡ slice_set window.old at (started ahead.now view.now (take at window.old) e) }
    ensures length { length window.new ≡ length window.old }
{
    let entry = window.entry(at);
    let (word, decoded) = (entry.word, entry.decoded);
    let flight = Flight::of(window, at, &*ahead, &*view);
    let due = due_fetched(&flight, word, decoded);
    window.begin(at, due.record, done(&due));
}

/// What a record does besides moving the pc and being counted where it goes on; one that ends does nothing.
#[inline(always)]
#[tactic(auto, unfolding(diva_ahead::specs::Effects::done_by))]
fn done(due: &Due) -> Effect
    requires { due.now.effect ≡ effect_of due.now.record }
    ensures value { result ≡ done_by due.now.record }
    ensures register { HasRegister due.now.effect → HasRegister result }
{
    if due.record.end == 0 {
        due.effect
    } else {
        Effect::Nothing
    }
}
