// What runs has one cycle less to run.
ghost use Rattle.std.specs.Prelude.{◌≡◌, ◌+◌, ◌<◌, ◌≤◌, drop, length, take};
ghost use Rattle.diva_ooo.specs.Finish.{Finish, finished, finished_from, redirect_by, redirected};

use crate::entry::Progress;
use crate::window::Window;
use diva_isa::Record;

/// What becomes of the fetch.
#[derive(Clone, Copy, Debug, PartialEq, Eq)]
pub enum Redirect {
    /// It goes on.
    On,
    /// It stops.
    Dry,
    /// It goes on at this address.
    To(u32),
}

/// Each entry that runs has one cycle less to run, oldest first. One that becomes done, and by which the fetch stops or is
/// redirected, removes all younger ones.
pub(crate) fn finish(window: &mut Window) -> Redirect
    ensures { record { window = window.new; redirect = result } ≡ finished window.old }
{
    let mut running = window.running_places();
    let mut at = running.first();
    while at < window.len() {
        let redirect = finish_at(window, at);
        if redirect != Redirect::On {
            window.keep(at + 1);
            return redirect;
        }
        running.remove(at);
        at = running.first();
    }
    Redirect::On
}

/// The same of the entry at a place: says what becomes of the fetch behind it.
#[tactic(auto, using(crate::proofs::Finished::finish_waiting, crate::proofs::Finished::finish_done))]
fn finish_at(window: &mut Window, at: usize) -> Redirect
    requires { at < length window.old }
    ensures finishes { redirected (take (at + 1) window.new) result (finished_from (take (at + 1) window.new) (drop (at + 1) window.new))
        ≡ finished_from (take at window.old) (drop at window.old) }
    ensures behind { drop (at + 1) window.new ≡ drop (at + 1) window.old }
    ensures length { length window.new ≡ length window.old }
{
    let entry = window.entry(at);
    match entry.progress {
        Progress::Waiting => Redirect::On,
        Progress::Done => Redirect::On,
        Progress::Running(left) if left > 1 => {
            window.advance(at, left - 1);
            Redirect::On
        }
        Progress::Running(_) => {
            let result = entry.result;
            let predicted = entry.predicted;
            window.complete(at);
            redirect_by(&result, predicted)
        }
    }
}

/// What becomes of the fetch behind a record, where `predicted` was fetched next.
fn redirect_by(r: &Record, predicted: u32) -> Redirect
    ensures { result ≡ redirect_by r.now predicted }
{
    if r.end != 0 {
        Redirect::Dry
    } else if r.next != predicted {
        Redirect::To(r.next)
    } else {
        Redirect::On
    }
}
