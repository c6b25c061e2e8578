// The bytes of the image's memory: data, then code.
ghost use Rattle.std.specs.Prelude.{◌≡◌, ◌≤◌, ◌+◌, ◌*◌, ◌++◌, IfOk, length, replicate};
ghost use Rattle.std.specs.Int.{to_le_bytes, w32};
ghost use Rattle.diva_decode.specs.Table.{IsValid, encoding_of};
ghost use Rattle.diva_image.specs.Layout.{most_size};
ghost use Rattle.diva_soak.specs.Soak.{words_as_bytes, last_words, payload_of, soak_size, words_after};

use crate::drawing::{drawn, of_immediate, of_sources};
use diva_decode::{Instr, Op, encode};
use diva_seed::next_number;
use std::alloc::{AllocError, Global};

/// The memory of a seed's image, with `count` drawn instructions.
#[tactic(auto, unfolding(crate::specs::Soak::payload_of))]
pub(crate) fn payload(alloc: Global, seed: u32, count: u32) -> Result<Vec<u8>, AllocError>
    requires { soak_size count ≤ most_size }
    ensures bytes { IfOk result (λ v. v.items ≡ payload_of seed count) }
    ensures long { IfOk result (λ v. length v.items ≡ soak_size count) }
{
    let mut bytes = vec![in alloc; 0; 2048]?;
    put_drawn(&mut bytes, seed, count)?;
    put_halt(&mut bytes)?;
    Ok(bytes)
}

/// The words of `count` instructions that a seed draws.
fn put_drawn(bytes: &mut Vec<u8>, seed: u32, count: u32) -> Result<(), AllocError>
    ensures bytes { IfOk result (λ _. bytes.new.items ≡ bytes.old.items ++ words_as_bytes (words_after count seed)) }
    ensures long { IfOk result (λ _. length bytes.new.items ≡ length bytes.old.items + 4 * count) }
{
    let mut x = seed;
    for _ in 0..count {
        x = next_number(x);
        put(bytes, &drawn(x))?;
    }
    Ok(())
}

/// The last three words: no operation, and a halt with the status that x10 holds.
#[tactic(auto, unfolding(diva_decode::specs::Table::encoding_of))]
fn put_halt(bytes: &mut Vec<u8>) -> Result<(), AllocError>
    ensures bytes { IfOk result (λ _. bytes.new.items ≡ bytes.old.items ++ words_as_bytes last_words) }
    ensures long { IfOk result (λ _. length bytes.new.items ≡ length bytes.old.items + 12) }
{
    put(bytes, &of_immediate(Op::Addi, 0, 0, 0))?;
    put(bytes, &of_immediate(Op::Addi, 17, 0, 93))?;
    put(bytes, &of_sources(Op::Ecall, 0, 0, 0))
}

/// One word, the lowest byte first.
fn put(bytes: &mut Vec<u8>, instr: &Instr) -> Result<(), AllocError>
    requires { IsValid instr.now }
    ensures bytes { IfOk result (λ _. bytes.new.items ≡ bytes.old.items ++ to_le_bytes w32 (encoding_of instr.now)) }
    ensures long { IfOk result (λ _. length bytes.new.items ≡ length bytes.old.items + 4) }
{
    bytes.extend_from_slice(&encode(instr).to_le_bytes())
}
