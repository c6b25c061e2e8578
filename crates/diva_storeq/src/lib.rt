//! The stores that have committed and are not in memory yet.
//!
//! - `store`: `Store`, one of them.
//! - `masked`: `Masked`, what it writes to the word of memory in which it lies.
//! - `queue`: `StoreQueue`, all of them in order, and how memory is read through them.
//!
//! Memory with the stores laid over it is `laid` of `specs/Stores.antt`; what a masked word writes is in `specs/Masked.antt`.
//! `Width` beside them is for private contracts alone.
#![tactic(auto)]

mod masked;
mod queue;
mod store;

pub use masked::Masked;
pub use queue::StoreQueue;
pub use store::Store;
