//! The instruction table, RV32IM and the two reads of `instret`, both ways: from a word of 32 bits to the
//! instruction that it is, and back.
//!
//! - `op`: [`Op`], the 50 operations.
//! - `instr`: [`Instr`], an operation with its registers and its immediate.
//! - `validity`: [`valid`], which instructions have a word.
//! - `decoding`: [`decode`], from a word to its instruction, one function for each opcode, and [`decode_here`], the same made
//!   part of its caller. `decoding/operations`: the operation of a word, where its opcode has several.
//! - `encoding`: [`encode`], from an instruction to its word, one function for each format.
//! - `fields`: the fields of a word that stand in one place in all formats.
//! - `immediates`: the immediate of a word, by its format.
//! - `opcodes`: the opcodes by their names.
//!
//! What [`decode`] gives is the definition `row_of` of `specs/Table.antt`: the table as 50 lines in the order of the
//! manual's listing. What [`encode`] gives is `encoding_of` of the same file: the fields of each format in their places.
//! Each undoes the other, but that FENCE has many words and [`encode`] gives one of them. The parts of a word and the
//! immediates are in `specs/Fields.antt`; `Inner` beside it is for private contracts alone. (RISC-V Unprivileged ISA,
//! chapter "RV32/64G Instruction Set Listings": RV32I 2.1 and M 2.0; chapter "Zicntr".)
#![tactic(auto)]

mod decoding;
mod encoding;
mod fields;
mod immediates;
mod instr;
mod op;
mod opcodes;
mod validity;

pub use decoding::{decode, decode_here};
pub use encoding::encode;
pub use instr::Instr;
pub use op::Op;
pub use validity::valid;
