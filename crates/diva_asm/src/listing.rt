// The listing's line of a word.
ghost use Rattle.std.specs.Prelude.{◌≡◌, ◌≤◌, ◌+◌, ◌++◌, ◌<◌, ◌^◌, length, codes, false};
ghost use Rattle.std.specs.Fmt.{signed_decimal, digits};
ghost use Rattle.std.specs.List.{sum_by, flat_map};
ghost use Rattle.diva_decode.specs.Table.{row_of};
ghost use Rattle.diva_asm.specs.Listing.{register, address_text, operand_text, operands_text, text_of, list_line};
ghost use Rattle.diva_asm.specs.Inner.{width, lead};

use crate::mnemonic::{op_name, op_operands};
use crate::operand::Operand;
use diva_decode::{Instr, decode};
use diva_outside::Line;

/// The line of the word at an address: the address, the word, and the instruction that it is.
#[tactic(auto, unfolding(crate::specs::Listing::list_line))]
pub fn list_line(addr: u32, word: u32) -> Line
    ensures { result ≡ list_line addr word }
{
    let mut line = Line::new();
    line.hex_word(addr);
    line.push(b' ');
    line.hex_word(word);
    line.push(b' ');
    match decode(word) {
        Some(i) => {
            line.text(op_name(i.op));
            push_operands(&mut line, addr, &i, op_operands(i.op));
        }
        None => {
            line.text(b".word 0x");
            line.hex_word(word);
        }
    }
    line.push(b'\n');
    line
}

fn push_operands(line: &mut Line, addr: u32, i: &Instr, operands: &[Operand])
    requires { length line.old + sum_by width operands.now ≤ 128 }
    ensures bytes { line.new ≡ line.old ++ operands_text addr i.now operands.now }
    ensures len { length line.new ≤ length line.old + sum_by width operands.now }
{
    match operands {
        [] => {}
        [first, others @ ..] => {
            line.text(b" ");
            push_operand(line, addr, i, *first);
            push_others(line, addr, i, others);
        }
    }
}

fn push_others(line: &mut Line, addr: u32, i: &Instr, operands: &[Operand])
    requires { length line.old + sum_by width operands.now ≤ 128 }
    ensures bytes { line.new ≡ line.old ++ flat_map (λ other. codes ", " ++ operand_text addr i.now other) operands.now }
    ensures len { length line.new ≤ length line.old + sum_by width operands.now }
{
    for operand in operands {
        line.text(b", ");
        push_operand(line, addr, i, *operand);
    }
}

#[tactic(auto, unfolding(crate::specs::Listing::operand_text))]
fn push_operand(line: &mut Line, addr: u32, i: &Instr, operand: Operand)
    requires { length line.old + width operand ≤ 128 + 2 }
    ensures bytes { line.new ≡ line.old ++ operand_text addr i.now operand }
    ensures len { length line.new + 2 ≤ length line.old + width operand }
{
    match operand {
        Operand::Rd => push_register(line, i.rd),
        Operand::Rs1 => push_register(line, i.rs1),
        Operand::Rs2 => push_register(line, i.rs2),
        Operand::Number { .. } => push_number(line, i.imm),
        Operand::Upper => {
            line.text(b"0x");
            push_hex(line, i.imm.cast_unsigned() >> 12);
        }
        Operand::Memory => {
            push_number(line, i.imm);
            line.push(b'(');
            push_register(line, i.rs1);
            line.push(b')');
        }
        Operand::Target => push_address(line, addr.wrapping_add(i.imm.cast_unsigned())),
    }
}

#[tactic(auto, unfolding(crate::specs::Listing::address_text))]
fn push_address(line: &mut Line, n: u32)
    requires { length line.old + 10 ≤ 128 }
    ensures bytes { line.new ≡ line.old ++ address_text n }
    ensures len { length line.new ≡ length line.old + 10 }
{
    line.text(b"0x");
    line.hex_word(n);
}

fn push_register(line: &mut Line, n: u8)
    requires { length line.old + 21 ≤ 128 }
    ensures bytes { line.new ≡ line.old ++ register n }
    ensures len { length line.new ≤ length line.old + 21 }
{
    line.push(b'x');
    line.decimal(u64::from(n));
}

fn push_number(line: &mut Line, n: i32)
    requires { length line.old + 21 ≤ 128 }
    ensures bytes { line.new ≡ line.old ++ signed_decimal n }
    ensures len { length line.new ≤ length line.old + 21 }
{
    let digits = u64::from(n.unsigned_abs());
    if n < 0 {
        line.push(b'-');
        line.decimal(digits);
    } else {
        line.decimal(digits);
    }
}

/// The number in hex digits, in lower case, with no leading zeros.
fn push_hex(line: &mut Line, n: u32)
    requires small { n < 2 ^ 20 }
    requires room { length line.old + 5 ≤ 128 }
    ensures bytes { line.new ≡ line.old ++ digits 16 false n }
    ensures len { length line.new ≤ length line.old + 5 }
{
    push_lead(line, n / 16 / 16 / 16 / 16);
    push_lead(line, n / 16 / 16 / 16);
    push_lead(line, n / 16 / 16);
    push_lead(line, n / 16);
    line.hex_digit(n);
}

/// The last hex digit of a number, or nothing where it is 0.
fn push_lead(line: &mut Line, n: u32)
    requires { length line.old + 1 ≤ 128 }
    ensures bytes { line.new ≡ line.old ++ lead n }
    ensures len { length line.new ≤ length line.old + 1 }
{
    if n != 0 {
        line.hex_digit(n);
    }
}
