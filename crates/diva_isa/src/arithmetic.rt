// What the operations compute, whether a branch is taken, what a load makes of its bytes, and which word is read of `instret`.

ghost use Rattle.std.specs.Prelude.{◌≡◌, ◌%◌, ◌^◌};
ghost use Rattle.diva_isa.specs.Alu.{alu, is_taken, extended, half_read};

use diva_decode::Op;

/// The result of an operation on two words, the second of which is rs2 or the immediate; 0 of an operation that
/// computes nothing. (RISC-V Unprivileged ISA, RV32I 2.1, "Integer Computational Instructions", and chapter M 2.0.)
///
/// Nothing traps: a shift takes the low 5 bits of its amount, and a division by zero has its results by the manual.
#[inline(always)]
pub fn alu(op: Op, a: u32, b: u32) -> u32
    ensures { result ≡ alu op a b }
{
    match op {
        Op::Add | Op::Addi => a.wrapping_add(b),
        Op::Sub => a.wrapping_sub(b),
        Op::Slt | Op::Slti => u32::from(a.cast_signed() < b.cast_signed()),
        Op::Sltu | Op::Sltiu => u32::from(a < b),
        Op::Xor | Op::Xori => a ^ b,
        Op::Or | Op::Ori => a | b,
        Op::And | Op::Andi => a & b,
        Op::Sll | Op::Slli => a.wrapping_shl(b),
        Op::Srl | Op::Srli => a.wrapping_shr(b),
        Op::Sra | Op::Srai => a.cast_signed().wrapping_shr(b).cast_unsigned(),
        Op::Mul => a.wrapping_mul(b),
        Op::Mulh => mulh(a, b),
        Op::Mulhsu => mulhsu(a, b),
        Op::Mulhu => ((u64::from(a) * u64::from(b)) >> 32) as u32,
        Op::Div => div(a, b),
        Op::Divu => a.checked_div(b).unwrap_or(u32::MAX),
        Op::Rem => rem(a, b),
        Op::Remu => a.checked_rem(b).unwrap_or(a),
        _ => 0,
    }
}

fn mulh(a: u32, b: u32) -> u32
    ensures { result ≡ alu Op.Mulh a b }
{
    let product = i64::from(a.cast_signed()) * i64::from(b.cast_signed());
    (product.cast_unsigned() >> 32) as u32
}

fn mulhsu(a: u32, b: u32) -> u32
    ensures { result ≡ alu Op.Mulhsu a b }
{
    let product = i64::from(a.cast_signed()) * i64::from(b);
    (product.cast_unsigned() >> 32) as u32
}

fn div(a: u32, b: u32) -> u32
    ensures { result ≡ alu Op.Div a b }
{
    if b == 0 {
        u32::MAX
    } else {
        a.cast_signed()
            .wrapping_div(b.cast_signed())
            .cast_unsigned()
    }
}

fn rem(a: u32, b: u32) -> u32
    ensures { result ≡ alu Op.Rem a b }
{
    if b == 0 {
        a
    } else {
        a.cast_signed()
            .wrapping_rem(b.cast_signed())
            .cast_unsigned()
    }
}

/// Whether a branch on two words is taken; `false` of another operation. (RISC-V Unprivileged ISA, RV32I 2.1, "Control
/// Transfer Instructions".)
#[inline(always)]
pub fn branch_taken(op: Op, a: u32, b: u32) -> bool
    ensures { result ≡ is_taken op a b }
{
    match op {
        Op::Beq => a == b,
        Op::Bne => a != b,
        Op::Blt => a.cast_signed() < b.cast_signed(),
        Op::Bge => a.cast_signed() >= b.cast_signed(),
        Op::Bltu => a < b,
        Op::Bgeu => a >= b,
        _ => false,
    }
}

/// What a load makes of its 1, 2 or 4 bytes, which are the low ones of `bytes`; 0 of another operation. (RISC-V
/// Unprivileged ISA, RV32I 2.1, "Load and Store Instructions".)
#[inline(always)]
pub fn load_value(op: Op, bytes: u32) -> u32
    ensures { result ≡ extended op bytes }
{
    match op {
        Op::Lb => i32::from(low_byte(bytes).cast_signed()).cast_unsigned(),
        Op::Lh => i32::from(low_half(bytes).cast_signed()).cast_unsigned(),
        Op::Lw => bytes,
        Op::Lbu => u32::from(low_byte(bytes)),
        Op::Lhu => u32::from(low_half(bytes)),
        _ => 0,
    }
}

fn low_byte(word: u32) -> u8
    ensures { result ≡ word % 2 ^ 8 }
{
    (word & 0xff) as u8
}

fn low_half(word: u32) -> u16
    ensures { result ≡ word % 2 ^ 16 }
{
    (word & 0xffff) as u16
}

/// The word that an instruction reads of `instret`: RDINSTRET the low one, RDINSTRETH the high one; 0 of another
/// operation. (RISC-V Unprivileged ISA, chapter "Zicntr and Zihpm".)
pub(crate) fn instret_word(op: Op, instret: u64) -> u32
    ensures { result ≡ half_read op instret }
{
    match op {
        Op::Rdinstret => (instret & 0xffff_ffff) as u32,
        Op::Rdinstreth => (instret >> 32) as u32,
        _ => 0,
    }
}
