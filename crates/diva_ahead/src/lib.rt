//! What a core that runs ahead of the machine keeps.
//!
//! - `ahead`: where such a core stands, `Ahead`.
//! - `ring`: what it handed over, laid over the machine's memory, `Ring`.
//! - `buffers`: how a buffer becomes a copy of another, `copy_buffer`.
//! - `effects`: which effects change memory, `is_store`.
//! - `stand`: the core's own state, to read, `Stand`.
//!
//! `specs/Effects.antt` says what records do one after the other, `specs/Ahead.antt` what the core keeps and how it
//! changes; `Inner` is for private contracts alone. `proofs/` has what follows: that such a core sees the state to which its claims
//! lead.
#![tactic(auto)]

mod ahead;
mod buffers;
mod effects;
mod ring;
mod stand;

pub use ahead::Ahead;
pub use buffers::copy_buffer;
pub use effects::is_store;
pub use ring::Ring;
