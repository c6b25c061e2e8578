//! The rates of faults whose lines stand in some files: the files are read one after the other, through a source, and then their rates are
//! written.
//!
//! - `rating`: `rate_files`.
//!
//! `specs/Rated.antt` has the text of the rates. `Inner` is for private contracts alone.
#![tactic(auto)]

mod rating;

pub use rating::rate_files;
