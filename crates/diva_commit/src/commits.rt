// What becomes of a record that is to commit.
ghost use Rattle.std.specs.Prelude.{◌≡◌, ◌<◌, ◌+◌, ◌%◌, ◌==◌, ◌++◌, ◌∷◌, [], ℕ, List, true, false, length, None, Some, IfSome};
ghost use Rattle.diva_decode.specs.Table.{row_of, HasRegisters};
ghost use Rattle.diva_storeq.specs.Stores.{entry_at, laid};
ghost use Rattle.diva_memory.specs.Bytes.{IsInside};
ghost use Rattle.diva_isa.specs.Kind.{size};
ghost use Rattle.diva_isa.specs.Step.{apply, with_bytes};
ghost use Rattle.diva_commit.specs.Committing.{state_of, answer, buffered, ending, is_committed, AreInside, IsDueButInstret};

use diva_core::{Diff, Output};
use diva_decode::{Instr, decode};
use diva_isa::{Effect, End, Record, Regs, Width, effect_by};
use diva_memory::Memory;
use diva_storeq::{Store, StoreQueue};

/// What became of a record that was to commit.
#[derive(Clone, Copy, Debug, PartialEq, Eq)]
pub enum Committed {
    /// It committed, and the machine goes on.
    GoesOn,
    /// It committed, and the machine halted with this status.
    Halt(u8),
    /// It committed, and the machine ended by this trap: its number, 0 to 9.
    Trap(u8),
    /// It is a store that does not trap, and the store queue is full: nothing changed.
    Held,
    /// The verdict is against it: nothing changed.
    Differs(Diff),
}

impl Committed {
    /// Whether the record committed.
    #[inline(always)]
    pub fn is_committed(&self) -> bool
        ensures { result ≡ is_committed self.now }
    {
        !matches!(self, Committed::Held | Committed::Differs(_))
    }
}

impl From<End> for Committed {
    ghost from_gives = { λ end committed. committed ≡ ending end };

    fn from(end: End) -> Self {
        match end {
            End::GoesOn => Committed::GoesOn,
            End::Halt(status) => Committed::Halt(status),
            End::Trap(number) => Committed::Trap(number),
        }
    }
}

/// Commits a record where no verdict is against it, and where the queue has a place for its store: it does to registers,
/// pc, queue and output what the record says, a store being put behind the others of the queue in place of memory.
///
/// Without a verdict the record has to be the due one of the state that these parts show. How many instructions led to that is not
/// among them, so the value of an instruction that reads their number may be any: who counts them has seen that it is due, and
/// counts one more where the record commits. The record is not looked at otherwise: what a verdict names is answered, also of an
/// equal record.
pub fn commit(
    regs: &mut Regs,
    pc: &mut u32,
    memory: &Memory,
    queue: &mut StoreQueue,
    output: &mut Output,
    r: &Record,
    verdict: Option<Diff>,
) -> Committed
    requires { verdict ≡ None
        → IsDueButInstret (state_of regs.old pc.old (laid memory.now queue.old.items) output.old 0 0) r.now }
    ensures answer { result ≡ answer verdict r.now (length queue.old.items == queue.old.capacity) }
    ensures stays { is_committed result ≡ false
        → (regs.new ≡ regs.old) × (pc.new ≡ pc.old) × (queue.new ≡ queue.old) × (output.new ≡ output.old) }
    ensures applied { is_committed result ≡ true → (n : ℕ)
        → state_of regs.new pc.new (laid memory.now queue.new.items) output.new (n + 1) r.now.end
        ≡ apply (state_of regs.old pc.old (laid memory.now queue.old.items) output.old n 0) r.now }
    ensures queued { is_committed result ≡ true → queue.new.items ≡ queue.old.items ++ buffered r.now }
    ensures capacity { queue.new.capacity ≡ queue.old.capacity }
    ensures inside { AreInside memory.now queue.old.items → AreInside memory.now queue.new.items }
{
    commit_by(regs, pc, memory, queue, output, decode(r.word), r, verdict)
}

/// Commits a record by its verdict, as [`commit`] does, but decodes nothing: `decoded` is what the record's word says, `None`
/// where it says nothing.
#[inline(always)]
#[tactic(auto, unfolding(diva_core::specs::Cycle::puts_store, diva_isa::specs::Step::apply))]
pub fn commit_by(
    regs: &mut Regs,
    pc: &mut u32,
    memory: &Memory,
    queue: &mut StoreQueue,
    output: &mut Output,
    decoded: Option<Instr>,
    r: &Record,
    verdict: Option<Diff>,
) -> Committed
    requires due { verdict ≡ None
        → IsDueButInstret (state_of regs.old pc.old (laid memory.now queue.old.items) output.old 0 0) r.now }
    requires decoded { decoded ≡ row_of r.now.word }
    requires registers { IfSome decoded HasRegisters }
    ensures answer { result ≡ answer verdict r.now (length queue.old.items == queue.old.capacity) }
    ensures stays { is_committed result ≡ false
        → (regs.new ≡ regs.old) × (pc.new ≡ pc.old) × (queue.new ≡ queue.old) × (output.new ≡ output.old) }
    ensures applied { is_committed result ≡ true → (n : ℕ)
        → state_of regs.new pc.new (laid memory.now queue.new.items) output.new (n + 1) r.now.end
        ≡ apply (state_of regs.old pc.old (laid memory.now queue.old.items) output.old n 0) r.now }
    ensures queued { is_committed result ≡ true → queue.new.items ≡ queue.old.items ++ buffered r.now }
    ensures capacity { queue.new.capacity ≡ queue.old.capacity }
    ensures inside { AreInside memory.now queue.old.items → AreInside memory.now queue.new.items }
{
    if let Some(diff) = verdict {
        return Committed::Differs(diff);
    }
    if r.end != 0 {
        return End::of(r.end).into();
    }
    match effect_by(decoded, r) {
        Effect::Nothing => {}
        Effect::Writes { rd, value } => regs.set(rd, value),
        Effect::Stores { width, addr, value } => {
            if queue.full() {
                return Committed::Held;
            }
            store(memory, queue, width, addr, value);
        }
        Effect::Puts(byte) => output.push(byte),
    }
    *pc = r.next;
    Committed::GoesOn
}

/// Puts a store behind the others of the queue.
fn store(memory: &Memory, queue: &mut StoreQueue, width: Width, addr: u32, value: u32)
    requires inside { IsInside (laid memory.now queue.old.items) addr (size width) }
    requires aligned { addr % size width ≡ 0 }
    requires space { length queue.old.items < queue.old.capacity }
    ensures laid { (regs : List ℕ) (pc : ℕ) (output : List ℕ) (n end : ℕ)
        → state_of regs pc (laid memory.now queue.new.items) output n end
        ≡ with_bytes (state_of regs pc (laid memory.now queue.old.items) output n end) (size width) addr value }
    ensures queued { queue.new.items ≡ queue.old.items ++ entry_at addr (size width) value ∷ [] }
    ensures capacity { queue.new.capacity ≡ queue.old.capacity }
    ensures inside { AreInside memory.now queue.old.items → AreInside memory.now queue.new.items }
{
    memory.recall();
    let width = width.size() as u8;
    queue.push(Store { addr, width, value });
}
