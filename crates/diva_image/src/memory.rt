// The bytes that an image's memory begins with, one part after another.
ghost use Rattle.std.specs.Prelude.{◌≡◌, ◌≤◌, ◌+◌, ◌-◌, ◌++◌, [], length, replicate, vec_capacity, IfOk};

use std::alloc::{AllocError, Global};

/// No bytes yet, and room for those from one address to another, and for no more. The error is that memory runs out.
pub(crate) fn room_between(alloc: Global, base: u32, end: u64) -> Result<Vec<u8>, AllocError>
    ensures empty { IfOk result (λ memory. memory.items ≡ []) }
    ensures exact { IfOk result (λ memory. vec_capacity memory ≡ end - base) }
{
    Vec::with_capacity(alloc, end.saturating_sub(u64::from(base)) as usize)
}

/// Appends bytes that begin at a place in memory, with zeros between them and what is there already. They find room there.
#[tactic(auto, using(std::proofs::lemmas::List::take_all))]
pub(crate) fn append_at(memory: &mut Vec<u8>, place: usize, bytes: &[u8])
    requires behind { length memory.old.items ≤ place }
    requires room { place + length bytes.now ≤ vec_capacity memory.old }
    ensures appended { memory.new.items ≡ memory.old.items ++ replicate (place - length memory.old.items) 0 ++ bytes.now }
    ensures room { vec_capacity memory.old ≤ vec_capacity memory.new }
{
    memory.resize(place, 0).unwrap();
    memory.extend_from_slice(bytes).unwrap();
}
