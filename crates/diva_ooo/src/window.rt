// The instructions under way, in program order.
ghost use Rattle.std.specs.Prelude.{◌≡◌, ◌≤◌, ◌<◌, ◌+◌, ◌-◌, ℕ, false, [], ◌∷◌, ◌++◌, length, drop, take, IfOk, IfSome, IsNone, Some, slice_get, slice_index, slice_set, true};
ghost use Rattle.std.specs.List.{position_or_len};
ghost use Rattle.diva_ooo.specs.declared.entry.Progress.TheVariants.{Done, Running};
ghost use Rattle.diva_core.specs.Cycle.{is_store};
ghost use Rattle.diva_ooo.specs.Board.{IsBoard, IsNextOf, can_at, is_load};
ghost use Rattle.diva_ooo.specs.Finish.{is_running};
ghost use Rattle.diva_ooo.specs.Issue.{are_stored, is_done, is_waiting, running, written};
ghost use Rattle.diva_ooo.specs.MarkSets.{has, holds_at};

use crate::board::Board;
use crate::entry::{Progress, WindowEntry};
use crate::mark_set::MarkSet;
use circular_buffer::HeapCircularBuffer;
use diva_ahead::{copy_buffer, is_store};
use diva_isa::{Effect, Record, Regs};
use std::alloc::{AllocError, Global};
use std::marker::Model;

/// The instructions under way, in program order: at most 32.
#[derive(Drop)]
pub(crate) struct Window {
    entries: HeapCircularBuffer<WindowEntry>,
    board: Board,
}

impl Model for Window {
    ghost use Rattle.std.specs.Prelude.{List, ◌≡◌, ◌<◌};
    ghost use Rattle.diva_ooo.specs.WindowEntry.{WindowEntry};
    ghost use Rattle.diva_ooo.specs.Board.{IsBoard};

    ghost Value = { List WindowEntry };

    ghost view = { λ w. w.entries.items };

    ghost invariant = { λ w.
        (w.entries.capacity ≡ 32) × IsBoard w.entries.items w.board × (w.board.base < 32) };
}

impl Window {
    ghost use Rattle.diva_ooo.specs.WindowEntry.{WindowEntry};
    ghost use Rattle.diva_ahead.specs.Effects.{done_by};
    ghost use Rattle.diva_isa.specs.Step.{HasRegister};

    /// The most entries that a window holds.
    pub(crate) const MOST: usize = 32;

    /// An empty window. The one error is that memory runs out, and no later call takes any.
    pub(crate) fn new(alloc: Global) -> Result<Self, AllocError>
        ensures { IfOk result (λ w. w ≡ []) }
    {
        Ok(Window {
            entries: HeapCircularBuffer::with_capacity(alloc, Self::MOST)?,
            board: Board::new(),
        })
    }

    /// A copy of the window. The one error is that memory runs out.
    pub(crate) fn copied(&self, alloc: Global) -> Result<Self, AllocError>
        ensures { IfOk result (λ w. w ≡ self.now) }
    {
        let mut copy = Window::new(alloc)?;
        copy.copy_from(self);
        Ok(copy)
    }

    /// Becomes a copy of another window. It takes no memory.
    pub(crate) fn copy_from(&mut self, other: &Window)
        ensures { self.new ≡ other.now }
    {
        copy_buffer(&mut self.entries, &other.entries);
        self.board = other.board;
    }

    /// Recalls for a proof how many entries there are at most. It does nothing.
    #[inline(always)]
    fn recall(&self)
        ensures { length self.now ≤ 32 }
    {
        let _ = self.entries.len();
    }

    /// How many instructions are under way: at most 32.
    pub(crate) fn len(&self) -> usize
        ensures value { result ≡ length self.now }
        ensures most { result ≤ 32 }
    {
        self.entries.len()
    }

    /// The entry at a place, the oldest being at 0.
    #[inline]
    pub(crate) fn entry(&self, at: usize) -> &WindowEntry
        requires { at < length self.now }
        ensures { slice_get self.now at ≡ Some result.now }
    {
        self.entries.get(at).unwrap()
    }

    /// The place of the first entry whose result stores, from a place on and before another.
    #[inline]
    pub(crate) fn next_store(&self, from: usize, end: usize) -> Option<usize>
        requires from { from ≤ end }
        requires end { end ≤ length self.now }
        ensures some { IfSome result (λ n. IsNextOf (λ e. is_store (done_by e.result)) self.now from n × (n < end)) }
        ensures below { IfSome result (λ n. n < 32) }
        ensures none { IsNone result → (i : ℕ) → from ≤ i → i < end → holds_at (λ e. is_store (done_by e.result)) self.now i ≡ false }
    {
        self.recall();
        match self.board.next_store(from) {
            Some(place) if place < end => Some(place),
            _ => None,
        }
    }

    /// The places of the entries that run.
    #[inline]
    pub(crate) fn running_places(&self) -> MarkSet
        ensures { (i : ℕ) → has result i ≡ holds_at (λ e. is_running e.progress) self.now i }
    {
        self.board.running_places()
    }

    /// Places of entries that wait: each that can begin is one of them. Where one is a load, each older store is done.
    #[inline]
    pub(crate) fn candidate_places(&self) -> MarkSet
        ensures waiting { (i : ℕ) → has result i ≡ true → holds_at (λ e. is_waiting e.progress) self.now i ≡ true }
        ensures others { (i : ℕ) → has result i ≡ false → can_at [] self.now i ≡ false }
        ensures stored { (i : ℕ) → has result i ≡ true → holds_at is_load self.now i ≡ true
            → are_stored (take i self.now) ≡ true }
    {
        self.board.candidate_places()
    }

    /// Whether the entry at a place, which waits, can begin. Where it is a load, each older store is done.
    #[inline]
    pub(crate) fn is_ready(&mut self, at: usize) -> bool
        requires place { at < length self.old }
        requires waits { holds_at (λ e. is_waiting e.progress) self.old at ≡ true }
        requires stored { holds_at is_load self.old at ≡ true → are_stored (take at self.old) ≡ true }
        ensures value { result ≡ can_at [] self.old at }
        ensures same { self.new ≡ self.old }
    {
        self.recall();
        is_ready_at(&self.entries, &mut self.board, at)
    }

    /// The word in a register behind the entries before a place, of which those that are done have written theirs; before
    /// all of them the registers are `regs`.
    #[inline]
    pub(crate) fn reg(&self, at: usize, n: u8, regs: &Regs) -> u32
        requires place { at < length self.now }
        requires register { n < 32 }
        ensures { result ≡ slice_index (written regs.now (take at self.now)) n }
    {
        self.recall();
        let before = regs.get(n);
        match self.board.last_result(at, n) {
            Some(place) => {
                let entry = self.entries.get(place).unwrap();
                entry.result.value
            }
            None => before,
        }
    }

    /// The entry at a place, which runs, runs for so many cycles more.
    #[inline]
    pub(crate) fn advance(&mut self, at: usize, left: u8)
        requires runs { (e : WindowEntry) → slice_get self.old at ≡ Some e → is_running e.progress ≡ true }
        requires within { at < length self.old }
        ensures set { (e : WindowEntry) → slice_get self.old at ≡ Some e
            → self.new ≡ slice_set self.old at (record e { progress = Running left }) }
        ensures length { length self.new ≡ length self.old }
    {
        let entry = self.entries.get_mut(at).unwrap();
        entry.progress = Progress::Running(left);
    }

    /// The entry at a place, which runs, is done.
    #[inline]
    pub(crate) fn complete(&mut self, at: usize)
        requires runs { (e : WindowEntry) → slice_get self.old at ≡ Some e → is_running e.progress ≡ true }
        requires within { at < length self.old }
        ensures set { (e : WindowEntry) → slice_get self.old at ≡ Some e
            → self.new ≡ slice_set self.old at (record e { progress = Done }) }
        ensures length { length self.new ≡ length self.old }
    {
        self.recall();
        let entry = self.entries.get_mut(at).unwrap();
        let rd = entry.profile.rd;
        entry.progress = Progress::Done;
        self.board.complete(at, rd);
    }

    /// Begins to run the entry at a place, which waits, and comes to a record that has this effect.
    #[inline(always)]
    pub(crate) fn begin(&mut self, at: usize, r: Record, effect: Effect)
        requires waits { (e : WindowEntry) → slice_get self.old at ≡ Some e → is_waiting e.progress ≡ true }
        requires place { at < length self.old }
        requires effect { effect ≡ done_by r }
        requires register { HasRegister effect }
        ensures set { (e : WindowEntry) → slice_get self.old at ≡ Some e
            → self.new ≡ slice_set self.old at (running e r) }
        ensures length { length self.new ≡ length self.old }
    {
        self.recall();
        let entry = self.entries.get_mut(at).unwrap();
        entry.progress = Progress::Running(entry.profile.cycles);
        entry.result = r;
        entry.effect = effect;
        self.board.begin(at, is_store(&effect));
    }

    /// Adds the youngest entry, which waits. There is room for it.
    #[inline(always)]
    pub(crate) fn push(&mut self, entry: WindowEntry)
        requires room { length self.old < 32 }
        requires waits { is_waiting entry.progress ≡ true }
        ensures { self.new ≡ self.old ++ entry ∷ [] }
    {
        let at = self.entries.len();
        self.board.push(at, &entry.profile);
        let _ = self.entries.try_push_back(entry);
    }

    /// Removes the oldest entry, if there is one. It is done.
    pub(crate) fn pop(&mut self)
        requires { (e : WindowEntry) → slice_get self.old 0 ≡ Some e → is_done e.progress ≡ true }
        ensures { self.new ≡ drop 1 self.old }
    {
        self.recall();
        if self.entries.pop_front().is_none() {
            return;
        }
        self.board.pop();
        if self.board.base == Board::STEP {
            self.board.renumber();
        }
    }

    /// Keeps the oldest `most`.
    #[tactic(auto, using(crate::proofs::Places::take_all))]
    pub(crate) fn keep(&mut self, most: usize)
        ensures { self.new ≡ take most self.old }
    {
        if most < self.len() {
            self.entries.truncate_back(most);
            self.board.keep(most);
        }
    }

    /// Removes all.
    pub(crate) fn clear(&mut self)
        ensures { self.new ≡ [] }
    {
        self.entries.clear();
        self.board = Board::new();
    }
}

/// The same of a window in its parts; where the entry has not its sources, it is no candidate any more.
fn is_ready_at(entries: &HeapCircularBuffer<WindowEntry>, board: &mut Board, at: usize) -> bool
    requires few { length entries.now.items ≤ 32 }
    requires place { at < length entries.now.items }
    requires waits { holds_at (λ e. is_waiting e.progress) entries.now.items at ≡ true }
    requires stored { holds_at is_load entries.now.items at ≡ true → are_stored (take at entries.now.items) ≡ true }
    requires board { IsBoard entries.now.items board.old }
    requires base { board.old.base < 32 }
    ensures value { result ≡ can_at [] entries.now.items at }
    ensures board { IsBoard entries.now.items board.new }
    ensures base { board.new.base ≡ board.old.base }
{
    let entry = entries.get(at).unwrap();
    let profile = &entry.profile;
    if !board.has_sources(at, profile) {
        board.pass(at);
        return false;
    }
    profile.class.is_free_at(at)
}
