// The record of a state's next instruction, and each part of it by itself.

ghost use Rattle.std.specs.Prelude.{◌≡◌, ◌≢◌, false, true, ℕ, ◌*◌, ◌%◌, ◌^◌, ◌<◌, IfSome, None, slice_index};
ghost use Rattle.std.specs.Option.{option_and_then};
ghost use Rattle.diva_decode.specs.Table.{HasRegisters, IsValid, row_of};
ghost use Rattle.diva_isa.specs.State.{State, word_of};
ghost use Rattle.diva_isa.specs.Alu.{half_read};
ghost use Rattle.diva_isa.specs.Kind.{kind, moves_memory, size};
ghost use Rattle.diva_isa.specs.End.{halt, trap};
ghost use Rattle.diva_isa.specs.Step.{HasRegister, address, call, continues, effect, effect_by, effect_of, ended, load, outcome, outcome_of, record_fetched, record_of, source1, source2, source1_of, source2_of, address_of, store, jumps_to, record_with};
ghost use Rattle.diva_isa.specs.Trap.{trap_number};

use crate::arithmetic::{alu, branch_taken, instret_word, load_value};
use crate::effect::{Effect, PUT, effect_as};
use crate::kind::{Kind, Width, kind_of};
use crate::look::Look;
use crate::record::{OUTPUT_LIMIT, Operands, Outcome, Record};
use crate::regs::Regs;
use crate::trap::Trap;
use diva_decode::{Instr, Op, decode_here};

/// The service that halts the machine, as ECALL asks for it by x17.
const HALT: u32 = 93;

/// A record, and what it does besides moving the pc and being counted.
#[derive(Clone, Copy, Debug, PartialEq, Eq)]
pub struct Due {
    /// The record.
    pub record: Record,
    /// Its effect, as [`effect_by`](crate::effect_by) has it.
    pub effect: Effect,
}

/// The record of the next instruction of a state, an ended one too. (RISC-V Unprivileged ISA, chapters RV32I 2.1 and M
/// 2.0.)
///
/// `specs/Step.antt` has a row for each kind of instruction, from which it is made.
#[inline(always)]
pub fn record_of<L: Look>(state: &L) -> Record
    ensures { result ≡ record_of (L.shows state.now) }
{
    let fetched = fetch(state);
    record_by(state, fetched, decoded_of(fetched))
}

/// What a fetched word says, `None` where there is none or it is not one of the table.
#[inline(always)]
pub fn decoded_of(fetched: Option<u32>) -> Option<Instr>
    ensures decoded { result ≡ option_and_then row_of fetched }
    ensures registers { IfSome result HasRegisters }
{
    match fetched {
        Some(word) => decode_here(word),
        None => None,
    }
}

/// The record of the next instruction of a state, as [`record_of`] has it, but neither fetches nor decodes: `fetched` is what
/// [`fetch`] gives of the state, and `decoded` is what that word says.
#[inline(always)]
pub fn record_by<L: Look>(state: &L, fetched: Option<u32>, decoded: Option<Instr>) -> Record
    requires word { let s = L.shows state.now in fetched ≡ word_of s s.pc }
    requires decoded { decoded ≡ option_and_then row_of fetched }
    requires registers { IfSome decoded HasRegisters }
    ensures { result ≡ record_of (L.shows state.now) }
{
    due_by(state, fetched, decoded).record
}

/// The record of the next instruction of a state with its effect, where [`record_by`] gives the record alone. `fetched` is what
/// [`fetch`] gives of the state, and `decoded` is what that word says.
#[inline(always)]
#[tactic(auto, unfolding(crate::specs::Step::record_of))]
pub fn due_by<L: Look>(state: &L, fetched: Option<u32>, decoded: Option<Instr>) -> Due
    requires word { let s = L.shows state.now in fetched ≡ word_of s s.pc }
    requires decoded { decoded ≡ option_and_then row_of fetched }
    requires registers { IfSome decoded HasRegisters }
    ensures record { result.record ≡ record_of (L.shows state.now) }
    ensures effect { result.effect ≡ effect_by decoded result.record }
    ensures register { HasRegister result.effect }
{
    due_fetched(state, fetched, decoded)
}

/// What a word comes to at the pc of a state, whether or not it is the one that stands there: its record with the effect.
/// `fetched` is the word, `None` where there is none, and `decoded` is what it says.
#[inline(always)]
pub fn due_fetched<L: Look>(state: &L, fetched: Option<u32>, decoded: Option<Instr>) -> Due
    requires decoded { decoded ≡ option_and_then row_of fetched }
    requires registers { IfSome decoded HasRegisters }
    ensures record { result.record ≡ record_fetched (L.shows state.now) fetched }
    ensures effect { result.effect ≡ effect_by decoded result.record }
    ensures register { HasRegister result.effect }
{
    let word = fetched.unwrap_or(0);
    match &decoded {
        // The kinds that programs have most of are told apart first: what is done for such a kind is then one piece, and a
        // short one, since no memory is looked at.
        Some(i) => match kind_of(i.op) {
            Kind::OpImm => {
                let r = begun(state, word, i, Kind::OpImm);
                completed(r, i, operate_with_immediate(i, &r), Kind::OpImm)
            }
            Kind::OpReg => {
                let r = begun(state, word, i, Kind::OpReg);
                completed(r, i, operate(i, &r), Kind::OpReg)
            }
            Kind::Branch => {
                let r = begun(state, word, i, Kind::Branch);
                completed(r, i, branch(i, &r), Kind::Branch)
            }
            kind => due_looked_at(state, word, i, kind),
        },
        None => Due {
            record: unread(state.pc(), fetched),
            effect: Effect::Nothing,
        },
    }
}

/// What a word comes to, as [`due_fetched`] has it, where it says an instruction, and the kind of that is known: where `which` is
/// a constant, what is done is one piece.
#[inline(always)]
pub fn due_as<L: Look>(state: &L, word: u32, i: &Instr, which: Kind) -> Due
    requires says { row_of word ≡ Some i.now }
    requires kind { kind i.now.op ≡ which }
    requires registers { HasRegisters i.now }
    ensures record { result.record ≡ record_fetched (L.shows state.now) (Some word) }
    ensures effect { result.effect ≡ effect_of result.record }
    ensures register { HasRegister result.effect }
{
    due_looked_at(state, word, i, which)
}

/// The record of an instruction of a kind, with its effect.
#[inline(always)]
fn due_looked_at<L: Look>(state: &L, word: u32, i: &Instr, kind: Kind) -> Due
    requires { HasRegisters i.now }
    ensures record { let s = L.shows state.now in let a = source1 kind s i.now in let b = source2 kind s i.now in
        let addr = address kind i.now a in
        result.record ≡ record_with s.pc word a b addr (outcome kind s i.now s.pc a b addr) }
    ensures effect { result.effect ≡ effect kind i.now result.record }
    ensures register { HasRegister result.effect }
{
    let r = begun(state, word, i, kind);
    completed(r, i, come_to(state, i, &r, kind), kind)
}

/// The first five fields of the record of an instruction of a kind; the others are 0.
#[inline(always)]
fn begun<L: Look>(state: &L, word: u32, i: &Instr, kind: Kind) -> Record
    requires { HasRegisters i.now }
    ensures { let s = L.shows state.now in let a = source1 kind s i.now in
        result ≡ record { pc = s.pc; word = word; src1 = a; src2 = source2 kind s i.now; addr = address kind i.now a; value = 0; next = 0; end = 0 } }
{
    let read = reads(state, i, kind);
    Record {
        pc: state.pc(),
        word,
        src1: read.first,
        src2: read.second,
        addr: address_as(i, read.first, kind),
        value: 0,
        next: 0,
        end: 0,
    }
}

/// A record that comes to an outcome, with its effect.
#[inline(always)]
fn completed(r: Record, i: &Instr, outcome: Outcome, kind: Kind) -> Due
    requires { HasRegisters i.now }
    ensures record { result.record ≡ record r { value = outcome.value; next = outcome.next; end = outcome.end } }
    ensures effect { result.effect ≡ effect kind i.now result.record }
    ensures register { HasRegister result.effect }
{
    let record = r.ending_in(outcome);
    let effect = effect_as(i, &record, kind);
    Due { record, effect }
}

/// The record where a word says nothing, or is not there.
#[cold]
#[inline(never)]
fn unread(pc: u32, fetched: Option<u32>) -> Record
    requires { option_and_then row_of fetched ≡ None }
    ensures { (s : State) → s.pc ≡ pc → result ≡ record_fetched s fetched }
{
    match fetched {
        Some(word) => trap_before(pc, word, Trap::IllegalInstruction),
        None => trap_before(pc, 0, Trap::InstructionAccessFault),
    }
}

/// The record of an instruction that traps before it is known what it is.
fn trap_before(pc: u32, word: u32, cause: Trap) -> Record
    ensures { result ≡ record_with pc word 0 0 0 (ended pc (trap cause)) }
{
    let r = Record {
        pc,
        word,
        src1: 0,
        src2: 0,
        addr: 0,
        value: 0,
        next: 0,
        end: 0,
    };
    r.ending_in(trapped(pc, cause))
}

/// The word of the next instruction, `None` exactly where `pc` is no multiple of 4 or a byte is outside memory.
#[inline(always)]
pub fn fetch<L: Look>(state: &L) -> Option<u32>
    ensures { let s = L.shows state.now in result ≡ word_of s s.pc }
{
    state.word(state.pc())
}

/// The words that an instruction reads: `decoded` is what its word says, and both are 0 where that is `None`.
#[inline(always)]
pub fn sources<L: Look>(state: &L, decoded: Option<Instr>) -> Operands
    requires { IfSome decoded HasRegisters }
    ensures { let s = L.shows state.now in
        result ≡ record { first = source1_of decoded s; second = source2_of decoded s } }
{
    match decoded {
        Some(i) => reads(state, &i, kind_of(i.op)),
        None => Operands {
            first: 0,
            second: 0,
        },
    }
}

/// The words that an instruction reads, as [`sources`] has them, but from the registers alone, which are all of a state that it
/// reads its words from: `decoded` is what its word says, and both are 0 where that is `None`.
#[inline(always)]
#[tactic(auto, using(crate::proofs::Registers::reads_named))]
pub fn sources_in(regs: &Regs, decoded: Option<Instr>) -> Operands
    requires { IfSome decoded IsValid }
    ensures { (s : State) → s.regs ≡ regs.now
        → result ≡ record { first = source1_of decoded s; second = source2_of decoded s } }
{
    match decoded {
        Some(i) if matches!(i.op, Op::Ecall) => sources_of_call(regs),
        // A register that the instruction does not read is x0 here.
        Some(i) => Operands {
            first: regs.get(i.rs1),
            second: regs.get(i.rs2),
        },
        None => Operands {
            first: 0,
            second: 0,
        },
    }
}

/// The words that a call reads: few instructions are one.
#[cold]
#[inline(never)]
fn sources_of_call(regs: &Regs) -> Operands
    ensures { result ≡ record { first = slice_index regs.now 17; second = slice_index regs.now 10 } }
{
    Operands {
        first: regs.get(17),
        second: regs.get(10),
    }
}

#[inline(always)]
fn reads<L: Look>(state: &L, i: &Instr, kind: Kind) -> Operands
    requires { HasRegisters i.now }
    ensures { let s = L.shows state.now in
        result ≡ record { first = source1 kind s i.now; second = source2 kind s i.now } }
{
    match kind {
        Kind::Lui | Kind::Auipc | Kind::Jal | Kind::Fence | Kind::Ebreak | Kind::Counter => {
            Operands {
                first: 0,
                second: 0,
            }
        }
        Kind::Jalr | Kind::Load(_) | Kind::OpImm => Operands {
            first: state.reg(i.rs1),
            second: 0,
        },
        Kind::Branch | Kind::Store(_) | Kind::OpReg => state.operands(i.rs1, i.rs2),
        Kind::Ecall => state.operands(17, 10),
    }
}

/// The address of a load or a store that reads `base`: the sum with its immediate, modulo 2^32. It is 0 of another
/// instruction, and where `decoded`, what the word says, is `None`.
#[inline(always)]
pub fn address(decoded: Option<Instr>, base: u32) -> u32
    ensures { result ≡ address_of decoded base }
{
    match decoded {
        Some(i) => address_as(&i, base, kind_of(i.op)),
        None => 0,
    }
}

#[inline(always)]
fn address_as(i: &Instr, base: u32, kind: Kind) -> u32
    ensures { result ≡ address kind i.now base }
{
    match kind {
        Kind::Load(_) | Kind::Store(_) => base.wrapping_add(i.imm.cast_unsigned()),
        _ => 0,
    }
}

#[inline(always)]
fn continues(pc: u32, value: u32) -> Outcome
    ensures { result ≡ continues pc value }
{
    Outcome {
        value,
        next: pc.wrapping_add(4),
        end: 0,
    }
}

#[inline(always)]
fn trapped(pc: u32, cause: Trap) -> Outcome
    ensures { result ≡ ended pc (trap cause) }
{
    Outcome {
        value: 0,
        next: pc,
        end: 1 + cause.number(),
    }
}

#[inline(always)]
fn halted(pc: u32, status: u32) -> Outcome
    requires { status < 256 }
    ensures { result ≡ ended pc (halt status) }
{
    Outcome {
        value: 0,
        next: pc,
        end: 256 + status,
    }
}

fn jumps_to(pc: u32, value: u32, target: u32) -> Outcome
    ensures { result ≡ jumps_to pc value target }
{
    if target % 4 == 0 {
        Outcome {
            value,
            next: target,
            end: 0,
        }
    } else {
        trapped(pc, Trap::InstructionMisaligned)
    }
}

/// What a load comes to. With an arm for each width, what is done for one is one piece.
#[inline(always)]
fn load<L: Look>(state: &L, r: &Record, op: Op, width: Width) -> Outcome
    ensures { result ≡ load (L.shows state.now) r.now.pc r.now.addr op (size width) }
{
    match width {
        Width::Byte => load_bytes(state, r, op, Width::Byte),
        Width::Half => load_bytes(state, r, op, Width::Half),
        Width::Word => load_bytes(state, r, op, Width::Word),
    }
}

#[inline(always)]
fn load_bytes<L: Look>(state: &L, r: &Record, op: Op, width: Width) -> Outcome
    ensures { result ≡ load (L.shows state.now) r.now.pc r.now.addr op (size width) }
{
    if r.addr % width.size() != 0 {
        return trapped(r.pc, Trap::LoadMisaligned);
    }
    match state.number(r.addr, width) {
        Some(number) => continues(r.pc, load_value(op, number)),
        None => trapped(r.pc, Trap::LoadAccessFault),
    }
}

#[inline(always)]
fn store<L: Look>(state: &L, r: &Record, width: Width) -> Outcome
    ensures { result ≡ store (L.shows state.now) r.now.pc r.now.addr r.now.src2 (size width) }
{
    if r.addr % width.size() != 0 {
        return trapped(r.pc, Trap::StoreMisaligned);
    }
    if !state.has(r.addr, width) {
        return trapped(r.pc, Trap::StoreAccessFault);
    }
    continues(r.pc, low_bytes(r.src2, width))
}

fn low_bytes(word: u32, width: Width) -> u32
    ensures { result ≡ word % 2 ^ (8 * size width) }
{
    match width {
        Width::Byte => word & 0xff,
        Width::Half => word & 0xffff,
        Width::Word => word,
    }
}

#[inline(always)]
fn call<L: Look>(state: &L, r: &Record) -> Outcome
    ensures { result ≡ call (L.shows state.now) r.now.pc r.now.src1 r.now.src2 }
{
    match r.src1 {
        PUT if state.out_len() < OUTPUT_LIMIT => continues(r.pc, r.src2 & 0xff),
        PUT => trapped(r.pc, Trap::OutputFull),
        HALT => halted(r.pc, r.src2 & 0xff),
        _ => trapped(r.pc, Trap::CallNotServed),
    }
}

/// What a read of `instret` comes to. Few instructions are one, so it stands out of line.
#[cold]
#[inline(never)]
fn read_instret(pc: u32, op: Op, instret: u64) -> Outcome
    ensures { result ≡ continues pc (half_read op instret) }
{
    continues(pc, instret_word(op, instret))
}

/// What an instruction comes to, by the first five fields of its record, by whether its word is there, and by `decoded`,
/// what the word says.
#[inline(always)]
pub fn finish<L: Look>(state: &L, there: bool, decoded: Option<Instr>, r: &Record) -> Outcome
    ensures { result ≡ outcome_of there decoded (L.shows state.now) r.now.pc r.now.src1 r.now.src2 r.now.addr }
{
    match decoded {
        Some(i) => come_to(state, &i, r, kind_of(i.op)),
        None => not_read(r.pc, there),
    }
}

#[inline(always)]
fn not_read(pc: u32, there: bool) -> Outcome
    ensures { (s : State) (a : ℕ) (b : ℕ) (addr : ℕ) → result ≡ outcome_of there None s pc a b addr }
{
    if there {
        trapped(pc, Trap::IllegalInstruction)
    } else {
        trapped(pc, Trap::InstructionAccessFault)
    }
}

#[inline(always)]
fn come_to<L: Look>(state: &L, i: &Instr, r: &Record, kind: Kind) -> Outcome
    ensures { result ≡ outcome kind (L.shows state.now) i.now r.now.pc r.now.src1 r.now.src2 r.now.addr }
{
    match kind {
        Kind::Load(width) => load(state, r, i.op, width),
        Kind::Store(width) => store(state, r, width),
        Kind::Ecall => call(state, r),
        Kind::Counter => read_instret(r.pc, i.op, state.instret()),
        kind => compute(kind, i, r),
    }
}

/// What an instruction comes to that is a load or a store, by the first five fields of its record.
#[inline(always)]
pub fn access<L: Look>(state: &L, i: &Instr, r: &Record) -> Outcome
    ensures { let s = L.shows state.now in moves_memory (kind i.now.op) ≡ true
        → result ≡ outcome (kind i.now.op) s i.now r.now.pc r.now.src1 r.now.src2 r.now.addr }
{
    match kind_of(i.op) {
        Kind::Load(width) => load(state, r, i.op, width),
        Kind::Store(width) => store(state, r, width),
        _ => continues(r.pc, 0),
    }
}

/// What an instruction comes to that is no load and no store, by the first four fields of its record.
#[inline(always)]
pub fn execute<L: Look>(state: &L, i: &Instr, r: &Record) -> Outcome
    ensures { let s = L.shows state.now in moves_memory (kind i.now.op) ≡ false
        → result ≡ outcome (kind i.now.op) s i.now r.now.pc r.now.src1 r.now.src2 r.now.addr }
{
    match kind_of(i.op) {
        Kind::Ecall => call(state, r),
        Kind::Counter => read_instret(r.pc, i.op, state.instret()),
        kind => compute(kind, i, r),
    }
}

/// The same of an instruction that neither calls the environment nor reads `instret`: no state is looked at.
#[inline(always)]
fn compute(kind: Kind, i: &Instr, r: &Record) -> Outcome
    ensures { (s : State) → moves_memory kind ≡ false → kind ≢ Kind.Ecall → kind ≢ Kind.Counter
        → result ≡ outcome kind s i.now r.now.pc r.now.src1 r.now.src2 r.now.addr }
{
    let imm = i.imm.cast_unsigned();
    match kind {
        Kind::Lui => continues(r.pc, imm),
        Kind::Auipc => continues(r.pc, r.pc.wrapping_add(imm)),
        Kind::Jal => jumps_to(r.pc, r.pc.wrapping_add(4), r.pc.wrapping_add(imm)),
        Kind::Jalr => jumps_to(r.pc, r.pc.wrapping_add(4), r.src1.wrapping_add(imm) & !1),
        Kind::Branch => branch(i, r),
        Kind::OpImm => operate_with_immediate(i, r),
        Kind::OpReg => operate(i, r),
        Kind::Ebreak => trapped(r.pc, Trap::Breakpoint),
        Kind::Fence | Kind::Load(_) | Kind::Store(_) | Kind::Ecall | Kind::Counter => {
            continues(r.pc, 0)
        }
    }
}

/// What a branch comes to, by the first four fields of its record.
#[inline(always)]
fn branch(i: &Instr, r: &Record) -> Outcome
    ensures { (s : State) → result ≡ outcome Kind.Branch s i.now r.now.pc r.now.src1 r.now.src2 r.now.addr }
{
    if branch_taken(i.op, r.src1, r.src2) {
        jumps_to(r.pc, 0, r.pc.wrapping_add(i.imm.cast_unsigned()))
    } else {
        continues(r.pc, 0)
    }
}

/// What an operation on a register and an immediate comes to, by the first four fields of its record.
#[inline(always)]
fn operate_with_immediate(i: &Instr, r: &Record) -> Outcome
    ensures { (s : State) → result ≡ outcome Kind.OpImm s i.now r.now.pc r.now.src1 r.now.src2 r.now.addr }
{
    continues(r.pc, alu(i.op, r.src1, i.imm.cast_unsigned()))
}

/// What an operation on two registers comes to, by the first four fields of its record.
#[inline(always)]
fn operate(i: &Instr, r: &Record) -> Outcome
    ensures { (s : State) → result ≡ outcome Kind.OpReg s i.now r.now.pc r.now.src1 r.now.src2 r.now.addr }
{
    continues(r.pc, alu(i.op, r.src1, r.src2))
}
