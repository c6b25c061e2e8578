//! The simple cores, and tapes.
//!
//! - `lockstep`: `Lockstep`, which hands over one instruction at a time.
//! - `scalar`: `Scalar`, which hands over one instruction in each cycle, ahead of the machine.
//! - `silent`: `Silent`, which hands over nothing.
//! - `flood`: `Flood`, which hands over eight claims of zeros in each call.
//! - `echo`: `Echo`, which hands over the same instruction again while it waits.
//! - `noise`: `Noise`, which hands over numbers of a generator.
//! - `tape_core`: `TapeCore`, which hands over the lists of a tape.
//! - `tape`: the lists of a text, `Tape`. `reading`: how a line is read, part by part and word by word; `line_parts`: its parts.
//!   `fault`: why a text is no tape, `TapeFault`.
//! - `piece`: the text of a claim in a tape.
//! - `laws`: what the histories of a core have in common.
//! - `worked`, `worked_scalar`, `worked_hostile`: runs that were worked out by hand, which the definitions give.
//!
//! `specs/Lists.antt` says what Lockstep, Silent, Flood and Echo hand over, `specs/Scalar.antt` what Scalar does,
//! `specs/Noise.antt` what Noise does, `specs/TapeCalls.antt` what a core does that plays a tape. `specs/Tapes.antt` has the
//! lists of a text, with `Kinds` the kinds of its faults, and `specs/TapeText.antt` the text of some lists; `TapeParts` is how a tape
//! keeps them. `specs/Programs.antt` says which programs run. `LineParts` is for private contracts alone.
#![tactic(auto)]

mod echo;
mod fault;
mod flood;
pub mod laws;
mod line_parts;
mod lockstep;
mod noise;
mod piece;
mod reading;
mod scalar;
mod silent;
mod tape;
mod tape_core;
pub mod worked;
pub mod worked_hostile;
pub mod worked_scalar;

pub use echo::Echo;
pub use fault::TapeFault;
pub use flood::Flood;
pub use lockstep::Lockstep;
pub use noise::Noise;
pub use piece::tape_piece;
pub use scalar::Scalar;
pub use silent::Silent;
pub use tape::Tape;
pub use tape_core::TapeCore;
