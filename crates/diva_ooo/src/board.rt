// What is known of the entries of a window.
ghost use Rattle.std.specs.Prelude.{◌≡◌, ◌+◌, ◌&&◌, ◌<◌, ◌≤◌, ◌⊎◌, ℕ, List, [], ◌∷◌, ◌++◌, length, get_or, nat_lt, take, IfSome, IsNone, Some, false, if◌then◌else◌, slice_get, slice_set, true};
ghost use Rattle.diva_ooo.specs.WindowEntry.{WindowEntry, profile_of};
ghost use Rattle.diva_ahead.specs.Effects.{done_by};
ghost use Rattle.diva_core.specs.Cycle.{is_store};
ghost use Rattle.diva_ooo.specs.Board.{IsBoard, IsLastOf, IsNextOf, IsWrittenBetween, can_at, could_at, has_result, is_load, no_mark, reads};
ghost use Rattle.diva_ooo.specs.Finish.{is_running};
ghost use Rattle.diva_ooo.specs.Issue.{are_stored, is_available, is_done, is_waiting};
ghost use Rattle.diva_ooo.specs.Known.{HasSources};
ghost use Rattle.diva_ooo.specs.MarkSets.{has, holds_at};

use crate::mark_set::MarkSet;
use crate::profile::Profile;

/// How many registers there are.
const REGISTERS: usize = 32;

/// Which entries of a window are how far, and which registers they read and write. So no entry has to look for the ones
/// that it waits for.
///
/// An entry has a mark, which stays while older ones go: its place among them all, and the base more.
#[derive(Clone, Copy, Debug)]
pub(crate) struct Board {
    /// The mark of the oldest entry: 32 at most.
    pub base: usize,
    pub waiting: MarkSet,
    pub running: MarkSet,
    pub done: MarkSet,
    /// Those that store, and are not done.
    pub storing: MarkSet,
    /// Those whose results store.
    pub stored: MarkSet,
    pub loads: MarkSet,
    /// Those among which are all that wait and have their sources.
    pub candidates: MarkSet,
    /// By register: those that write it. None writes x0.
    pub writers: [MarkSet; REGISTERS],
    /// By register: those that read it. None reads x0.
    pub readers: [MarkSet; REGISTERS],
}

impl Board {
    /// The mark of the oldest entry at which the marks are lowered, and by how much: as many as the entries of a full window.
    pub(crate) const STEP: usize = 32;

    /// The board of no entry.
    pub(crate) fn new() -> Self
        ensures board { IsBoard [] result }
        ensures base { result.base ≡ 0 }
    {
        Board {
            base: 0,
            waiting: MarkSet::NONE,
            running: MarkSet::NONE,
            done: MarkSet::NONE,
            storing: MarkSet::NONE,
            stored: MarkSet::NONE,
            loads: MarkSet::NONE,
            candidates: MarkSet::NONE,
            writers: [MarkSet::NONE; REGISTERS],
            readers: [MarkSet::NONE; REGISTERS],
        }
    }

    /// Adds the youngest entry, which is at a place and has not begun.
    #[inline(always)]
    pub(crate) fn push(&mut self, at: usize, profile: &Profile)
        requires base { self.old.base ≤ 32 }
        requires place { at < 32 }
        requires sources { HasSources profile.now }
        ensures board { (w : List WindowEntry) (e : WindowEntry) → IsBoard w self.old → length w ≡ at → is_waiting e.progress ≡ true
            → is_store (done_by e.result) ≡ false → profile_of e ≡ profile.now → IsBoard (w ++ e ∷ []) self.new }
        ensures base { self.new.base ≡ self.old.base }
    {
        let mark = self.base + at;
        if self.has_sources_behind(profile) {
            self.candidates.put(mark, true);
        }
        self.waiting.put(mark, true);
        if profile.class.is_storing() {
            self.storing.put(mark, true);
        }
        if profile.class.is_loading() {
            self.loads.put(mark, true);
        }
        self.writers[usize::from(profile.rd)].put(mark, true);
        self.readers[usize::from(profile.rs1)].put(mark, true);
        self.readers[usize::from(profile.rs2)].put(mark, true);
        // None writes x0 or reads it.
        self.writers[0] = MarkSet::NONE;
        self.readers[0] = MarkSet::NONE;
    }

    /// Whether an entry behind all these has its sources.
    fn has_sources_behind(&self, profile: &Profile) -> bool
        requires base { self.now.base ≤ 32 }
        requires sources { HasSources profile.now }
        ensures { (w : List WindowEntry) → IsBoard w self.now → length w ≤ 32
            → result ≡ (is_available w profile.now.rs1 && is_available w profile.now.rs2) }
    {
        self.is_available_behind(profile.rs1) && self.is_available_behind(profile.rs2)
    }

    /// Whether a register is available to an entry behind all these. None of these writes x0.
    fn is_available_behind(&self, n: u8) -> bool
        requires base { self.now.base ≤ 32 }
        requires register { n < 32 }
        ensures { (w : List WindowEntry) → IsBoard w self.now → length w ≤ 32 → result ≡ is_available w n }
    {
        match self.writers[usize::from(n)].highest() {
            Some(mark) => self.done.has(mark),
            None => true,
        }
    }

    /// Keeps the oldest `most` entries.
    pub(crate) fn keep(&mut self, most: usize)
        requires base { self.old.base < 32 }
        requires most { most ≤ 32 }
        ensures board { (w : List WindowEntry) → IsBoard w self.old → IsBoard (take most w) self.new }
        ensures base { self.new.base ≡ self.old.base }
    {
        let end = self.base + most;
        self.waiting = self.waiting.below(end);
        self.running = self.running.below(end);
        self.done = self.done.below(end);
        self.storing = self.storing.below(end);
        self.stored = self.stored.below(end);
        self.loads = self.loads.below(end);
        keep_below(&mut self.writers, end);
        keep_below(&mut self.readers, end);
    }

    /// Removes the oldest entry, which is done.
    pub(crate) fn pop(&mut self)
        requires { self.old.base < 32 }
        ensures board { (w : List WindowEntry) (e : WindowEntry) → IsBoard (e ∷ w) self.old → is_done e.progress ≡ true → IsBoard w self.new }
        ensures base { self.new.base ≡ self.old.base + 1 }
    {
        self.base += 1;
    }

    /// Gives the oldest entry the mark 0 again: each mark is lower by `STEP`.
    pub(crate) fn renumber(&mut self)
        requires { self.old.base ≡ 32 }
        ensures board { (w : List WindowEntry) → IsBoard w self.old → IsBoard w self.new }
        ensures base { self.new.base ≡ 0 }
    {
        self.base = 0;
        self.waiting = self.waiting.lowered(Self::STEP);
        self.running = self.running.lowered(Self::STEP);
        self.done = self.done.lowered(Self::STEP);
        self.storing = self.storing.lowered(Self::STEP);
        self.stored = self.stored.lowered(Self::STEP);
        self.loads = self.loads.lowered(Self::STEP);
        self.candidates = self.candidates.lowered(Self::STEP);
        lower(&mut self.writers);
        lower(&mut self.readers);
    }

    /// The entry at a place, which waits, begins to run; `stores` says whether its result stores.
    pub(crate) fn begin(&mut self, at: usize, stores: bool)
        requires base { self.old.base ≤ 32 }
        requires place { at < 32 }
        ensures board { (w : List WindowEntry) (e new : WindowEntry) → IsBoard w self.old → slice_get w at ≡ Some e
            → is_waiting e.progress ≡ true → is_running new.progress ≡ true → profile_of new ≡ profile_of e
            → is_store (done_by e.result) ≡ false → is_store (done_by new.result) ≡ stores → IsBoard (slice_set w at new) self.new }
        ensures base { self.new.base ≡ self.old.base }
    {
        let mark = self.base + at;
        self.waiting.remove(mark);
        self.running.put(mark, true);
        self.stored.put(mark, stores);
    }

    /// The entry at a place, which runs and writes a register, is done.
    pub(crate) fn complete(&mut self, at: usize, rd: u8)
        requires base { self.old.base < 32 }
        requires place { at < 32 }
        requires register { rd < 32 }
        ensures board { (w : List WindowEntry) (e new : WindowEntry) → IsBoard w self.old → slice_get w at ≡ Some e
            → is_running e.progress ≡ true → is_done new.progress ≡ true → profile_of new ≡ profile_of e → done_by new.result ≡ done_by e.result
            → rd ≡ (profile_of e).rd → IsBoard (slice_set w at new) self.new }
        ensures base { self.new.base ≡ self.old.base }
    {
        let mark = self.base + at;
        let waiting = self.readers_of(at, rd);
        self.running.remove(mark);
        self.done.put(mark, true);
        self.storing.remove(mark);
        self.candidates.put_all(waiting);
    }

    /// The readers of the register that the entry at a place writes, up to the next entry that writes it.
    fn readers_of(&self, at: usize, rd: u8) -> MarkSet
        requires base { self.now.base < 32 }
        requires place { at < 32 }
        requires register { rd < 32 }
        ensures { (w : List WindowEntry) → IsBoard w self.now → (i : ℕ) → has result (self.now.base + i) ≡ false
            → (holds_at (reads rd) w i ≡ false) ⊎ IsWrittenBetween w rd at i }
    {
        let n = usize::from(rd);
        self.readers[n].up_to_next(self.writers[n], self.base + at + 1)
    }

    /// The entry at a place is no candidate.
    pub(crate) fn pass(&mut self, at: usize)
        requires base { self.old.base ≤ 32 }
        requires place { at < 32 }
        ensures board { (w : List WindowEntry) → IsBoard w self.old → could_at [] w at ≡ false → IsBoard w self.new }
        ensures base { self.new.base ≡ self.old.base }
    {
        self.candidates.remove(self.base + at);
    }

    /// The places of the entries that run.
    pub(crate) fn running_places(&self) -> MarkSet
        requires { self.now.base < 32 }
        ensures { (w : List WindowEntry) → IsBoard w self.now
            → (i : ℕ) → has result i ≡ holds_at (λ e. is_running e.progress) w i }
    {
        self.running.lowered(self.base)
    }

    /// The place of the first entry whose result stores, from a place on.
    #[inline]
    pub(crate) fn next_store(&self, from: usize) -> Option<usize>
        requires base { self.now.base < 32 }
        requires place { from ≤ 32 }
        ensures some { (w : List WindowEntry) → IsBoard w self.now → IfSome result (IsNextOf (λ e. is_store (done_by e.result)) w from) }
        ensures none { (w : List WindowEntry) → IsBoard w self.now → IsNone result
            → (i : ℕ) → from ≤ i → holds_at (λ e. is_store (done_by e.result)) w i ≡ false }
    {
        match self.stored.next(self.base + from) {
            Some(mark) => Some(mark - self.base),
            None => None,
        }
    }

    /// Places of entries that wait: each that can begin is one of them. Where one is a load, each older store is done.
    pub(crate) fn candidate_places(&self) -> MarkSet
        requires { self.now.base < 32 }
        ensures waiting { (w : List WindowEntry) → IsBoard w self.now → (i : ℕ) → has result i ≡ true
            → holds_at (λ e. is_waiting e.progress) w i ≡ true }
        ensures others { (w : List WindowEntry) → IsBoard w self.now → (i : ℕ) → has result i ≡ false
            → can_at [] w i ≡ false }
        ensures stored { (w : List WindowEntry) → IsBoard w self.now → (i : ℕ) → has result i ≡ true
            → holds_at is_load w i ≡ true → are_stored (take i w) ≡ true }
    {
        self.eligible().lowered(self.base)
    }

    /// The candidates that wait, but for loads behind a store that is not done.
    fn eligible(&self) -> MarkSet
        requires { self.now.base ≤ 32 }
        ensures waiting { (w : List WindowEntry) (i : ℕ) → IsBoard w self.now → has result (self.now.base + i) ≡ true
            → holds_at (λ e. is_waiting e.progress) w i ≡ true }
        ensures others { (w : List WindowEntry) (i : ℕ) → IsBoard w self.now → has result (self.now.base + i) ≡ false
            → can_at [] w i ≡ false }
        ensures stored { (w : List WindowEntry) (i : ℕ) → IsBoard w self.now → has result (self.now.base + i) ≡ true
            → holds_at is_load w i ≡ true → are_stored (take i w) ≡ true }
    {
        let waiting = self.candidates.both(self.waiting);
        match self.storing.next(self.base) {
            Some(mark) => waiting.except(self.loads, mark),
            None => waiting,
        }
    }

    /// Whether an entry at a place has its sources.
    pub(crate) fn has_sources(&self, at: usize, profile: &Profile) -> bool
        requires base { self.now.base ≤ 32 }
        requires place { at < 32 }
        requires sources { HasSources profile.now }
        ensures { (w : List WindowEntry) → IsBoard w self.now → at ≤ length w
            → result ≡ (is_available (take at w) profile.now.rs1 && is_available (take at w) profile.now.rs2) }
    {
        self.is_available(at, profile.rs1) && self.is_available(at, profile.rs2)
    }

    /// Whether a register is available to an entry at a place.
    fn is_available(&self, at: usize, n: u8) -> bool
        requires base { self.now.base ≤ 32 }
        requires place { at < 32 }
        requires register { n < 32 }
        ensures { (w : List WindowEntry) → IsBoard w self.now → at ≤ length w → result ≡ is_available (take at w) n }
    {
        match self.writers[usize::from(n)].last(self.base + at) {
            Some(mark) => self.done.has(mark),
            None => true,
        }
    }

    /// The place of the last entry before one that is done and writes a register.
    pub(crate) fn last_result(&self, at: usize, n: u8) -> Option<usize>
        requires base { self.now.base ≤ 32 }
        requires place { at < 32 }
        requires register { n < 32 }
        ensures some { (w : List WindowEntry) → IsBoard w self.now → at ≤ length w → IfSome result (IsLastOf (has_result n) w at) }
        ensures none { (w : List WindowEntry) → IsBoard w self.now → at ≤ length w → IsNone result
            → (i : ℕ) → i < at → holds_at (has_result n) w i ≡ false }
    {
        let older = self.done.below(self.base + at).from(self.base);
        match self.writers[usize::from(n)].both(older).highest() {
            Some(mark) => Some(mark - self.base),
            None => None,
        }
    }
}

/// Keeps the marks of each set that are below one.
fn keep_below(sets: &mut [MarkSet; REGISTERS], end: usize)
    requires { end < 64 }
    ensures kept { (n : ℕ) → n < 32 → (i : ℕ) → has (get_or sets.new n no_mark) i
        ≡ (if nat_lt i end then has (get_or sets.old n no_mark) i else false) }
    ensures sets { length sets.new ≡ 32 }
{
    for n in 0..REGISTERS {
        sets[n] = sets[n].below(end);
    }
}

/// Each mark of each set is lower by `Board::STEP`.
fn lower(sets: &mut [MarkSet; REGISTERS])
    ensures lowered { (n : ℕ) → n < 32 → (i : ℕ) → has (get_or sets.new n no_mark) i
        ≡ has (get_or sets.old n no_mark) (32 + i) }
    ensures sets { length sets.new ≡ 32 }
{
    for n in 0..REGISTERS {
        sets[n] = sets[n].lowered(Board::STEP);
    }
}
