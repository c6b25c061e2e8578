//! A sample out-of-order core.
//!
//! - `profile`: what the core notes of an instruction that it fetches; `predicting`: where it fetches next;
//! - `entry`, `window`: the instructions under way, in program order;
//! - `finishing`: what runs has one cycle less to run;
//! - `board`: which of them are how far, and which registers they read and write; `mark_set`: sets of them;
//! - `flight`: the state that an instruction reads;
//! - `issuing`: waiting instructions begin to run;
//! - `ooo`: the core, `Ooo`;
//! - `laws`: what follows of its calls.
//!
//! `specs/Ooo.antt` has one definition for each of the six steps of a call, over `WindowEntry`, `Finish`, `Issue` and `Profile` beside it.
//! `specs/Known.antt`, `Board.antt` and `MarkSets.antt` are what the parts of the core promise one another; `Known` is what the code
//! notes with an entry.
#![tactic(auto)]

mod board;
mod entry;
mod finishing;
mod flight;
mod issuing;
pub mod laws;
mod mark_set;
mod ooo;
mod predicting;
mod profile;
mod window;

pub use ooo::Ooo;
