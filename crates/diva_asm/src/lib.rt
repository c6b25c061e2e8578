//! The assembler and the listing: from a source to an image, and from a word to its line.
//!
//! - `assembling`: `assemble`, from a source to its image or to its first fault. `fault`: `AsmFault`, and the kinds of faults.
//! - `laying`: the first pass, which finds where labels and statements stand. `labels`: where labels stand.
//! - `building`: the second pass, which makes the bytes. `words`: the instructions of a statement. `bytes`: bytes that are put
//!   together.
//! - `statement`: the labels and the statement of a line. `operands`: registers, numbers and places. `texts`: how a line is cut.
//! - `mnemonic`: the mnemonics and directives. `operand`: the operands that each takes. Both the assembler and the listing go by
//!   them. `names`: a walk over a table of names.
//! - `listing`: `list_line`, the line of a word.
//!
//! `docs/FORMATS.md` has the language of a source. `specs/Sources.antt` has the image of a source, or its first fault, over the
//! passes of `Laying` and `Building`, with `Labels`, where labels stand, and `Kinds`, the kinds of faults. `Texts` says how a line is
//! cut, `Statements` and `Operands` what it says then. `specs/Mnemonics.antt` has the table of mnemonics, and
//! `specs/Listing.antt` the line of a word and the listing of an image. `Reads` and `Inner` are for private contracts alone.
#![tactic(auto)]

mod assembling;
mod building;
mod bytes;
mod fault;
mod labels;
mod laying;
mod listing;
mod mnemonic;
mod names;
mod operand;
mod operands;
mod statement;
mod texts;
mod words;

pub use assembling::assemble;
pub use fault::AsmFault;
pub use listing::list_line;
