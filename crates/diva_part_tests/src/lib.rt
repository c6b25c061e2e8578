//! Tests of the crates below the machine, each by itself.
//!
//! - `words`: words both ways, of `diva_decode`: those that an assembler made, which `words/encodings` has, FENCE, and some outside
//!   the table.
//! - `numbers`: the first ten numbers of the generator, of `diva_seed`.
//! - `memory`: what is inside memory and read at its ends, and which bytes are apart from stores, of `diva_memory`.
//! - `queue`: a half word and a byte over a word, of `diva_storeq`.
//! - `plain`: three instructions on the plain machine of `diva_isa`. `counts`: reads of a count of two words there.
//! - `vectors`: what arithmetic, branches and loads of `diva_isa` came to in an emulator that is not of this repository: operations
//!   on two `registers` and on `immediates`, `branches` and `loads`.
//! - `stages`: what each stage of the checker, `diva_fetchchk`, `diva_opchk` and `diva_execchk`, answers of a claim behind older ones:
//!   `stages/tables` has the claims.
//! - `commits`: a verdict against an equal record, a full store queue, and a trap, of `diva_commit`.
//!
//! What is due was worked out by hand, or came from an outside tool; none of it is taken from what this repository's code
//! answered.
#![tactic(auto)]

#[cfg(test)]
mod tests;
