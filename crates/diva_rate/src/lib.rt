//! Rates of injected faults: lines that each say of a fault what became of the run, and what is counted of them, in shares with
//! intervals, latencies and further cycles.
//!
//! - `injection`: what a line says, `Injection` and `Effect`. `injections`: the lines that are kept, `Injections`, of which
//!   each fault counts once. `reading`, `cells`: how a line is read, cell by cell. `fault`: why a text was not read, `RateFault`.
//! - `group`: lines that are counted together, `Group`. `counts`: what is counted of them, `What`. `shares`: a share with its
//!   interval, `Share`. `latencies`: `Latencies`, by the nearest rank. `extra`: the mean of further cycles, `Extra`.
//! - `rates`: all this of each group, `Rates` and `GroupRates`.
//! - `writing`: their text, `write_rates`. `lines`: the lines of that text.
//!
//! `specs/Injections.antt` has what the lines of texts make of what is kept, with `Cells` what a cell may be, `Kinds` the kinds
//! of faults, and `Names` how texts call what a line names. `Rates` has the rates of what is kept, with `Groups` which lines a
//! group has, `Counts` which of them count, `Shares` the share with its interval, `Latencies` the nearest rank, and `Extra` the mean of
//! cycles. `Text` has the text of rates, and `Lines` its lines. `Grouping` and `Inner` are for private contracts alone.
#![tactic(auto)]

mod cells;
mod counts;
mod extra;
mod fault;
mod group;
mod injection;
mod injections;
mod latencies;
mod lines;
mod rates;
mod reading;
mod shares;
#[cfg(test)]
mod tests;
mod writing;

pub use counts::What;
pub use extra::Extra;
pub use fault::RateFault;
pub use group::{GROUPS, Group};
pub use injection::{Effect, FaultModel, Injection, OpenEnding};
pub use injections::Injections;
pub use latencies::Latencies;
pub use rates::{GroupRates, Rates};
pub use shares::Share;
pub use writing::write_rates;
