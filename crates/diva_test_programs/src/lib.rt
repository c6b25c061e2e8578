//! What tests of several crates begin with: small programs, the image files that they are, the records of one of them and the lines of
//! registers; `cores` has cores of the tests' own.
//!
//! `specs/Files.antt` says which bytes its files have, and `specs/Texts.antt` which lines the registers have.
#![tactic(auto)]

ghost use Rattle.std.specs.Prelude.{◌≡◌, ◌++◌, IfOk, OnOk, string_bytes};
ghost use Rattle.diva_test_programs.specs.Files.{altered_bytes, file_bytes, image_bytes, pairs_bytes, words_bytes};
ghost use Rattle.diva_test_programs.specs.Texts.{register_text, registers_text, value_in};

mod cores;

pub use cores::{Counting, Lists, Misled};
use diva_core::{Cause, Diff, Field, FlushRow, Told};
use diva_isa::Record;
use std::alloc::{AllocError, Global};
use std::fmt::Write;
use std::test::Fail;

/// An array of rows of a type, each written as one that it is like and the fields in which it differs.
#[macro_export]
macro_rules! rows {
    ($row:ident: $($like:ident { $($field:ident: $value:expr),* })*) => {
        [$($row { $($field: $value,)* ..$like }),*]
    };
}

/// An array that stays as it is laid out: several of its items may share a line.
#[macro_export]
macro_rules! laid {
    ($($item:tt)*) => { [$($item)*] };
}

/// A program of these words, in 64 bytes.
#[macro_export]
macro_rules! program {
    ($($word:expr),* $(,)?) => { $crate::Program { size: 64, words: &[$($word),*] } };
}

/// A record of these numbers, in the order of a tape: pc, word, src1, src2, addr, value, next and end.
#[macro_export]
macro_rules! record {
    [$pc:expr, $word:expr, $src1:expr, $src2:expr, $addr:expr, $value:expr, $next:expr, $end:expr] => {
        Record { pc: $pc, word: $word, src1: $src1, src2: $src2, addr: $addr, value: $value, next: $next, end: $end }
    };
}

/// A program that lies at 0, and is entered there.
#[derive(Clone, Copy)]
pub struct Program {
    /// The bytes of memory.
    pub size: u32,
    /// The words that memory begins with.
    pub words: &'static [u32],
}

/// `addi x1, x0, 5`, `addi x17, x0, 93` and `ecall`, which halts with status 0.
pub const FIVE: Program = program![0x00500093, 0x05d00893, 0x00000073];

/// The image file of `FIVE`.
pub const FIVE_FILE: [u8; 36] = [
    0x44, 0x49, 0x56, 0x41, 0x01, 0, 0, 0, 0, 0, 0, 0, 0x40, 0, 0, 0, 0, 0, 0, 0, 0x0c, 0, 0, 0,
    0x93, 0x00, 0x50, 0x00, 0x93, 0x08, 0xd0, 0x05, 0x73, 0, 0, 0,
];

/// The same image in version 2, where the three words are one segment.
pub const FIVE_SEGMENTED: [u8; 44] = [
    0x44, 0x49, 0x56, 0x41, 0x02, 0, 0, 0, 0, 0, 0, 0, 0x40, 0, 0, 0, 0, 0, 0, 0, 0x01, 0, 0, 0, 0,
    0, 0, 0, 0x0c, 0, 0, 0, 0x93, 0x00, 0x50, 0x00, 0x93, 0x08, 0xd0, 0x05, 0x73, 0, 0, 0,
];

/// A record whose fields are all 0.
pub const NOTHING: Record = record![0, 0, 0, 0, 0, 0, 0, 0];

/// The record of the first instruction of `FIVE`, `addi x1, x0, 5`.
pub const ADDS: Record = record![0, 0x00500093, 0, 0, 0, 5, 4, 0];

/// The record of the second, `addi x17, x0, 93`.
pub const ASKS: Record = record![4, 0x05d00893, 0, 0, 0, 93, 8, 0];

/// The record of the third, `ecall`: it reads x17 and x10, and ends.
pub const HALTS: Record = record![8, 0x00000073, 93, 0, 0, 0, 8, 256];

/// The flush where the value of the first claim of `FIVE` is wrong, 4 in place of 5: the claim of cycle 1 is judged in cycle 7.
pub const WRONG_VALUE: FlushRow = FlushRow {
    cycle: 7,
    at: 0,
    cause: Cause::Differs(Diff {
        field: Field::Value,
        claimed: 4,
        due: 5,
    }),
};

/// Two stores of x0, to 32 and 36, and the halt.
pub const TWO_STORES: Program = program![0x02002023, 0x02002223, 0x05d00893, 0x00000073];

/// Four stores of x0, to 32, 36, 40 and 44, and the halt.
pub const FOUR_STORES: Program = program![
    0x02002023, 0x02002223, 0x02002423, 0x02002623, 0x05d00893, 0x00000073
];

/// `rdinstret x1`, `rdinstret x2`, and the halt: no instruction is before the first read, and one before the second.
pub const TWO_READS: Program = program![0xc02020f3, 0xc0202173, 0x05d00893, 0x00000073];

/// `addi x1, x0, -1`, `rdinstreth x1`, which reads 0, `rdinstret x0` of 2 instructions, `rdinstret x2` of 3, and the halt.
pub const THREE_READS: Program = program![
    0xfff00093, 0xc82020f3, 0xc0202073, 0xc0202173, 0x05d00893, 0x00000073
];

/// `jal x0, 0`, which goes on for ever.
pub const LOOP: Program = program![0x0000006f];

/// The image file of a program.
pub fn image_file(alloc: Global, program: Program) -> Result<Vec<u8>, Fail>
    ensures { IfOk result (λ file. file.items ≡ image_bytes program) }
{
    let length = u32::try_from(program.words.len() * 4)?;
    let mut file = file_of(alloc, [1, 0, program.size, 0, length], &[], &[])?;
    push_words(&mut file, program.words)?;
    Ok(file)
}

/// An image file of these numbers, which are the version, base, size, entry and one more; then come pairs of
/// numbers, and bytes.
pub fn file_of(
    alloc: Global,
    header: [u32; 5],
    pairs: &[(u32, u32)],
    bytes: &[u8],
) -> Result<Vec<u8>, AllocError>
    ensures { IfOk result (λ file. file.items ≡ file_bytes header pairs.now bytes.now) }
{
    let mut file = Vec::from_slice(alloc, b"DIVA")?;
    push_words(&mut file, &header)?;
    push_pairs(&mut file, pairs)?;
    file.extend_from_slice(bytes)?;
    Ok(file)
}

/// Appends the four bytes of each number, the lowest first.
fn push_words(file: &mut Vec<u8>, words: &[u32]) -> Result<(), AllocError>
    ensures { OnOk result (file.new.items ≡ file.old.items ++ words_bytes words.now) }
{
    for word in words {
        file.extend_from_slice(&word.to_le_bytes())?;
    }
    Ok(())
}

/// The same of both numbers of each pair.
fn push_pairs(file: &mut Vec<u8>, pairs: &[(u32, u32)]) -> Result<(), AllocError>
    ensures { OnOk result (file.new.items ≡ file.old.items ++ pairs_bytes pairs.now) }
{
    for (first, second) in pairs {
        push_words(file, &[*first, *second])?;
    }
    Ok(())
}

/// A file as long as this, with zeros where it was shorter, in which one byte is another.
pub fn altered(
    alloc: Global,
    file: &[u8],
    len: usize,
    at: usize,
    byte: u8,
) -> Result<Vec<u8>, AllocError>
    ensures { IfOk result (λ altered. altered.items ≡ altered_bytes file.now len at byte) }
{
    let mut altered = Vec::from_slice(alloc, file)?;
    altered.resize(len, 0)?;
    if let Some(old) = altered.get_mut(at) {
        *old = byte;
    }
    Ok(altered)
}

/// The eight lines of the registers, of which these are not 0.
pub fn registers_text(alloc: Global, set: &[(u8, u32)]) -> Result<String, Fail>
    ensures { IfOk result (λ text. string_bytes text ≡ registers_text set.now) }
{
    let mut text = String::new(alloc);
    for register in 0..32 {
        push_register(&mut text, register, value_in(set, register))?;
    }
    Ok(text)
}

/// Appends the name of a register and its value, and what stands after it.
fn push_register(text: &mut String, register: u8, value: u32) -> Result<(), AllocError>
    ensures { OnOk result (string_bytes text.new ≡ string_bytes text.old ++ register_text register value) }
{
    let end = if register % 4 == 3 { "\n" } else { " " };
    write!(text, "x{register} {value:08x}{end}")
}

/// The number that the first pair of a register gives it, or 0.
fn value_in(set: &[(u8, u32)], register: u8) -> u32
    ensures { result ≡ value_in set.now register }
{
    set.iter()
        .find(|(given, _)| *given == register)
        .map_or(0, |(_, value)| *value)
}

/// What a core is told but for the cycle: the count, pc, the epoch, how many claims are pending, the room, idle, whether a claim is due,
/// and whether the machine has ended.
pub type Numbers = (u64, u32, u64, u32, u32, u32, bool, bool);

/// The numbers that a core is told.
pub fn numbers(told: Told) -> Numbers
    ensures { result ≡ (told.count, told.pc, told.epoch, told.pending, told.room, told.idle, told.due, told.ended) }
{
    (
        told.count,
        told.pc,
        told.epoch,
        told.pending,
        told.room,
        told.idle,
        told.due,
        told.ended,
    )
}
