//! The watchdog of the machine: where nothing commits for long, it says when to flush.
//!
//! It is the watchdog timer of Austin, 'DIVA: A Reliable Substrate for Deep Submicron
//! Microarchitecture Design', MICRO-32, 1999.
//!
//! - `watchdog`: `Watchdog`, which counts the cycles without a commit and says when to flush.
//! - `recover`: `Recover`, whether the machine runs the core's instructions or one solo.
//!
//! The rule is in `specs/Watchdog.antt`, and since when an instruction runs solo in `specs/Solo.antt`.
#![tactic(auto)]

mod recover;
mod watchdog;

pub use recover::Recover;
pub use watchdog::Watchdog;
