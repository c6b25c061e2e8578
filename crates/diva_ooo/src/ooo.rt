// The core.
ghost use Rattle.std.specs.Prelude.{◌≡◌, ◌≤◌, ◌<◌, ◌+◌, ℕ, suc, [], IfOk, IfSome, None, length, if◌then◌else◌};
ghost use Rattle.std.specs.Option.{option_and_then};
ghost use Rattle.diva_decode.specs.Table.{HasRegisters, row_of};
ghost use Rattle.diva_isa.specs.State.{State, word_of};
ghost use Rattle.diva_ahead.specs.Ahead.{is_epoch};
ghost use Rattle.diva_ooo.specs.Ooo.{IsOooCall, call_of, completed, dropped, fetched, fetching, handed_over, new_ooo, ooo_call, refilled, restarted, with_issued, with_word, worked};

use crate::entry::{Progress, WindowEntry};
use crate::finishing::{Redirect, finish};
use crate::issuing::issue;
use crate::predicting::predicted;
use crate::profile::Profile;
use crate::window::Window;
use diva_ahead::Ahead;
use diva_core::{Claims, CopyCore, Core, Told, View};
use diva_decode::Instr;
use diva_isa::{Effect, Record, decoded_of, effect_of};
use std::alloc::{AllocError, Global};
use std::marker::Model;

/// A core that runs instructions out of order, and hands them over in program order. It predicts where branches lead, and
/// throws away what it fetched where they lead elsewhere. Its claims may be wrong: it fetches words over which stores in
/// flight lie. The checker finds that.
#[derive(Drop)]
pub struct Ooo {
    ahead: Ahead,
    window: Window,
    fetch_pc: u32,
    dry: bool,
}

impl Model for Ooo {
    ghost use Rattle.diva_ooo.specs.Ooo.{Ooo};

    ghost Value = { Ooo };

    ghost view = { λ c. record { ahead = c.ahead; window = c.window; fetch_pc = c.fetch_pc; dry = c.dry } };
}

/// The record of what has not begun.
const BLANK: Record = Record {
    pc: 0,
    word: 0,
    src1: 0,
    src2: 0,
    addr: 0,
    value: 0,
    next: 0,
    end: 0,
};

impl Ooo {
    /// A core that has not taken the machine's state yet. The one error is that memory runs out, and no later call takes
    /// any.
    pub fn new(alloc: Global) -> Result<Self, AllocError>
        ensures { IfOk result (λ c. c ≡ new_ooo) }
    {
        Ok(Ooo {
            ahead: Ahead::new(alloc)?,
            window: Window::new(alloc)?,
            fetch_pc: 0,
            dry: false,
        })
    }

    /// Takes the machine's state.
    #[tactic(auto, unfolding(crate::specs::Ooo::restarted))]
    fn restart(&mut self, told: &Told, view: &View<'_>)
        ensures { self.new ≡ restarted self.old told.now view.now }
    {
        self.ahead.sync(told, view);
        self.window.clear();
        self.fetch_pc = view.pc();
        self.dry = false;
    }

    /// Drops what is no longer pending.
    fn trim(&mut self, told: &Told)
        ensures dropped { self.new ≡ dropped self.old told.now }
        ensures few { length self.new.ahead.ring ≤ told.now.pending }
    {
        self.ahead.trim(told);
    }

    /// What runs has one cycle less to run.
    #[tactic(auto, unfolding(crate::specs::Ooo::completed))]
    fn finish(&mut self)
        ensures completed { self.new ≡ completed self.old }
        ensures ahead { self.new.ahead ≡ self.old.ahead }
    {
        let redirect = finish(&mut self.window);
        self.redirect(redirect);
    }

    fn redirect(&mut self, redirect: Redirect)
        ensures redirected { self.new ≡ fetching self.old redirect }
        ensures ahead { self.new.ahead ≡ self.old.ahead }
    {
        match redirect {
            Redirect::On => {}
            Redirect::Dry => self.dry = true,
            Redirect::To(pc) => {
                self.fetch_pc = pc;
                self.dry = false;
            }
        }
    }

    /// Hands over at most `room` entries that are done, oldest first.
    fn hand_over(&mut self, room: u32, out: &mut Claims)
        requires list { out.old ≡ [] }
        requires room { room ≤ 4 }
        requires ring { length self.old.ahead.ring + room ≤ 64 }
        ensures { (s : State) → call_of out.new self.new ≡ handed_over room s [] self.old self.old.window }
    {
        for _ in 0..room {
            if !self.hand_over_oldest(out) {
                return;
            }
        }
    }

    /// Hands over the oldest entry, if it is done; says whether a further one may follow.
    #[tactic(auto, using(crate::proofs::Handing::ring_more, crate::proofs::Handing::effect_going))]
    fn hand_over_oldest(&mut self, out: &mut Claims) -> bool
        requires list { length out.old < 8 }
        requires ring { length self.old.ahead.ring < 64 }
        ensures hands { (n : ℕ) (s : State) → handed_over (suc n) s out.old self.old self.old.window
            ≡ (if result then handed_over n s out.new self.new self.new.window else call_of out.new self.new) }
        ensures list { length out.new ≤ length out.old + 1 }
        ensures ring { length self.new.ahead.ring ≤ length self.old.ahead.ring + 1 }
    {
        if self.window.len() == 0 {
            return false;
        }
        let entry = self.window.entry(0);
        if !entry.progress.is_done() {
            return false;
        }
        let result = entry.result;
        let effect = entry.effect;
        self.window.pop();
        out.push(result);
        if result.end != 0 {
            self.ahead.hand_over(&result, effect_of(&result));
            self.window.clear();
            self.dry = true;
            return false;
        }
        self.ahead.hand_over(&result, effect);
        true
    }

    /// Waiting entries begin to run.
    fn issue(&mut self, view: &View<'_>)
        ensures { self.new ≡ with_issued self.old view.now }
    {
        issue(&mut self.window, &self.ahead, view);
    }

    /// Adds an entry, where there is room for it and the fetch goes on.
    #[inline(always)]
    #[tactic(auto, unfolding(crate::specs::Ooo::fetched))]
    fn fetch(&mut self, view: &View<'_>)
        ensures { self.new ≡ fetched self.old view.now }
    {
        if self.window.len() < Window::MOST && !self.dry && !self.ahead.stopped() {
            self.fetch_next(view);
        }
    }

    /// Adds an entry of the word that is fetched next.
    #[inline(always)]
    fn fetch_next(&mut self, view: &View<'_>)
        requires { length self.old.window < 32 }
        ensures { self.new ≡ with_word self.old (word_of view.now self.old.fetch_pc) }
    {
        let word = view.word(self.fetch_pc);
        match decoded_of(word) {
            Some(i) => self.add(word, Some(i)),
            None => self.add_unread(word),
        }
    }

    /// Adds an entry of a word that says nothing, or of none.
    #[cold]
    #[inline(never)]
    fn add_unread(&mut self, word: Option<u32>)
        requires room { length self.old.window < 32 }
        requires says { option_and_then row_of word ≡ None }
        ensures { self.new ≡ with_word self.old word }
    {
        self.add(word, None);
    }

    /// Adds an entry of a word; `decoded` is what it says.
    #[inline(always)]
    fn add(&mut self, word: Option<u32>, decoded: Option<Instr>)
        requires room { length self.old.window < 32 }
        requires says { decoded ≡ option_and_then row_of word }
        requires registers { IfSome decoded HasRegisters }
        ensures { self.new ≡ with_word self.old word }
    {
        let pc = self.fetch_pc;
        self.fetch_pc = predicted(decoded, pc);
        self.dry = word.is_none();
        self.window.push(WindowEntry {
            pc,
            decoded,
            word,
            profile: Profile::of(decoded),
            predicted: self.fetch_pc,
            progress: Progress::Waiting,
            result: BLANK,
            effect: Effect::Nothing,
        });
    }

    /// All that follows once the core is of the machine's epoch, and what is no longer pending was dropped.
    #[inline(never)]
    fn work(&mut self, room: u32, view: &View<'_>, out: &mut Claims)
        requires list { out.old ≡ [] }
        requires room { room ≤ 4 }
        requires ring { length self.old.ahead.ring + room ≤ 64 }
        ensures { let now = completed self.old in
            call_of out.new self.new ≡ refilled (handed_over room view.now [] now now.window) view.now }
    {
        self.finish();
        self.hand_over(room, out);
        self.issue(view);
        self.fetch(view);
        self.fetch(view);
    }
}

impl Core for Ooo {
    ghost use Rattle.diva_ooo.specs.Ooo.{IsOooCall};

    ghost gives = { IsOooCall };

    #[inline(always)]
    #[tactic(auto, unfolding(crate::specs::Ooo::ooo_call, crate::specs::Ooo::worked))]
    fn cycle(&mut self, told: &Told, view: &View<'_>, out: &mut Claims) {
        if !self.ahead.is_of(told.epoch) {
            if told.room == 0 {
                return;
            }
            self.restart(told, view);
        }
        self.trim(told);
        self.work(told.room, view, out);
    }
}

impl CopyCore for Ooo {
    fn copied(&self, alloc: Global) -> Result<Self, AllocError> {
        Ok(Ooo {
            ahead: self.ahead.copied(alloc)?,
            window: self.window.copied(alloc)?,
            fetch_pc: self.fetch_pc,
            dry: self.dry,
        })
    }

    fn copy_from(&mut self, other: &Self) {
        self.ahead.copy_from(&other.ahead);
        self.window.copy_from(&other.window);
        self.fetch_pc = other.fetch_pc;
        self.dry = other.dry;
    }
}
