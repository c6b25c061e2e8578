//! The meaning of the instruction table.
//!
//! - `kind`: the kinds of operations, `Kind`, and how many bytes a load or a store moves, `Width`.
//! - `arithmetic`: what an operation computes, `alu`, whether a branch is taken, what a load makes of its bytes.
//! - `look`: a state that can be read, `Look`.
//! - `record`: the record of one instruction, `Record`, and its parts.
//! - `trap`: the traps by number, `Trap`.
//! - `end`: how a state has ended, as a word and as a number, `End`.
//! - `due`: the record of a state's next instruction, `record_of`, and each part of it by itself.
//! - `effect`: what a record does besides moving the pc and being counted, `Effect` and `effect_of`.
//! - `regs`: the 32 registers, `Regs`.
//! - `undo`: what an instruction overwrites, so that it can be taken back, `Undo` and `undo_of`.
//! - `plain`: the machine that does one instruction after another, `Plain`.
//!
//! The definitions that contracts cite are in `specs/`: a state in `State`; the record and what it does in `Step`, with
//! a row for each kind of instruction; the kind of each operation in `Kind`, and what it computes in `Alu`; writing a register in `Regs`;
//! how a state ends in `End`, and the traps by number in `Trap`; a state with a count in `Plain`; what an instruction overwrites,
//! and putting it back, in `Undo`. `Inner` is for private contracts alone. What follows from them is in `proofs/`.
//! (RISC-V Unprivileged ISA, chapters RV32I 2.1 and M 2.0.)
#![tactic(auto)]

mod arithmetic;
mod due;
mod effect;
mod end;
mod kind;
mod look;
mod plain;
mod record;
mod regs;
mod trap;
mod undo;

pub use arithmetic::{alu, branch_taken, load_value};
pub use due::{
    Due, access, address, decoded_of, due_as, due_by, due_fetched, execute, fetch, finish,
    record_by, record_of, sources, sources_in,
};
pub use effect::{Effect, effect_by, effect_of};
pub use end::End;
pub use kind::{Kind, Width, kind_of};
pub use look::Look;
pub use plain::Plain;
pub use record::{OUTPUT_LIMIT, Operands, Outcome, Record};
pub use regs::Regs;
pub use trap::Trap;
pub use undo::{Undo, undo_of};
