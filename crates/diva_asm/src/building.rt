// The second pass: the bytes that statements lay.
ghost use Rattle.std.specs.Prelude.{◌≡◌, ◌++◌, ◌+◌, ◌%◌, ◌^◌, ◌<◌, ◌∷◌, [], Some, Ok, length, IfOk, OnOk};
ghost use Rattle.diva_outside.specs.TextFaults.{GivesLine};
ghost use Rattle.diva_decode.specs.Table.{format, IsValid};
ghost use Rattle.diva_asm.specs.Mnemonics.{format_operands};
ghost use Rattle.diva_asm.specs.Reads.{Keeps, uses, unused, IsRead};
ghost use Rattle.diva_asm.specs.Building.{nothing_built, value_of, two_words, in_bytes, one_instruction, instructions, bytes_of_words, statement_bytes, is_entry, built_at, built_by, built_text};
ghost use Rattle.diva_asm.specs.Texts.{without_comment, labels_of};
ghost use Rattle.diva_asm.specs.Inner.{Appends};

use crate::bytes::Bytes;
use crate::fault::{Kind, Stop};
use crate::labels::Labels;
use crate::laying::is_short;
use crate::mnemonic::Mnemonic;
use crate::operands::{Operands, Place, word_from};
use crate::statement::{Statement, first_label, read_statement};
use crate::words::{addi, addi_of, instruction, jalr, lui_of, offset_to};
use diva_decode::{Instr, Op, encode};
use diva_outside::without_comment;
use std::alloc::{AllocError, Global};

/// What the lines so far have laid, and where `.entry` points.
#[derive(Drop)]
pub(crate) struct Built {
    /// The bytes from base on.
    pub bytes: Bytes,
    /// The address that `.entry` has said.
    pub entry: Option<u32>,
}

impl Built {
    /// Nothing yet, with room for so many bytes.
    pub fn new(alloc: Global, total: u32) -> Result<Self, AllocError>
        ensures { IfOk result (λ built. built ≡ nothing_built) }
    {
        let bytes = Bytes::with_capacity(alloc, total as usize)?;
        Ok(Built { bytes, entry: None })
    }

    /// With one more line of a source with base and labels.
    #[tactic(auto, unfolding(crate::specs::Building::built_text))]
    pub fn with_line(self, base: u32, labels: &Labels<'_>, line: &[u8]) -> Result<Self, Stop>
        ensures { GivesLine (built_text base labels.now self (without_comment line.now)) result }
    {
        match read_statement(without_labels(without_comment(line)))? {
            Some(statement) => self.with_statement(base, labels, &statement),
            None => Ok(self),
        }
    }

    fn with_statement(self, base: u32, labels: &Labels<'_>, s: &Statement<'_>) -> Result<Self, Stop>
        requires { IsRead s.now.mnemonic s.now.operands }
        ensures { GivesLine (built_by base labels.now self (Some s.now)) result }
    {
        let address = value_of(labels, &s.operands.place).ok_or(Kind::UndefinedName)?;
        self.with_statement_at(base, s.mnemonic, &s.operands, address)
    }

    #[tactic(auto, unfolding(crate::specs::Building::built_at))]
    fn with_statement_at(
        self,
        base: u32,
        mnemonic: Mnemonic,
        operands: &Operands<'_>,
        address: u32,
    ) -> Result<Self, Stop>
        requires { IsRead mnemonic operands.now }
        ensures { GivesLine (built_at base self mnemonic operands.now address) result }
    {
        if is_entry(mnemonic) {
            return Ok(Built {
                bytes: self.bytes,
                entry: Some(address),
            });
        }
        let mut bytes = self.bytes;
        let pc = base.wrapping_add((bytes.len() % (1 << 32)) as u32);
        match push_statement(&mut bytes, mnemonic, operands, address, pc) {
            Ok(()) => Ok(Built {
                bytes,
                entry: self.entry,
            }),
            Err(stop) => Err(stop),
        }
    }
}

fn is_entry(mnemonic: Mnemonic) -> bool
    ensures { result ≡ is_entry mnemonic }
{
    matches!(mnemonic, Mnemonic::Entry)
}

/// What follows a line's labels.
fn without_labels(text: &[u8]) -> &[u8]
    ensures { result.now ≡ (labels_of text.now).rest }
{
    let mut left = text;
    'label: while let Some((_, rest)) = first_label(left) {
        left = rest;
    }
    left
}

/// A label's address with the number added, or the number alone.
#[tactic(auto, unfolding(crate::specs::Building::value_of))]
fn value_of(labels: &Labels<'_>, place: &Place<'_>) -> Option<u32>
    ensures { result ≡ value_of labels.now place.now }
{
    match place.label() {
        Some(name) => match labels.get(name) {
            Some(address) => Some(address.wrapping_add(word_from(place.offset()))),
            None => None,
        },
        None => Some(word_from(place.offset())),
    }
}

/// A statement's bytes at the end.
#[tactic(auto, unfolding(crate::specs::Building::statement_bytes))]
fn push_statement(
    bytes: &mut Bytes,
    mnemonic: Mnemonic,
    operands: &Operands<'_>,
    address: u32,
    pc: u32,
) -> Result<(), Stop>
    requires { IsRead mnemonic operands.now }
    ensures { Appends (statement_bytes mnemonic operands.now address pc) bytes.old bytes.new result }
{
    match mnemonic {
        Mnemonic::Word => bytes.push_word(address)?,
        Mnemonic::Byte => bytes.push((word_from(operands.number) % 256) as u8)?,
        Mnemonic::Space => bytes.push_zeros(word_from(operands.number))?,
        _ => push_instructions(bytes, mnemonic, operands, address, pc)?,
    }
    Ok(())
}

#[tactic(auto, unfolding(crate::specs::Building::instructions))]
fn push_instructions(
    bytes: &mut Bytes,
    mnemonic: Mnemonic,
    v: &Operands<'_>,
    address: u32,
    pc: u32,
) -> Result<(), Stop>
    requires { IsRead mnemonic v.now }
    ensures { Appends (in_bytes (instructions mnemonic v.now address pc)) bytes.old bytes.new result }
{
    match mnemonic {
        Mnemonic::Instruction(op) => push_operation(bytes, op, v, offset_to(address, pc))?,
        Mnemonic::J => push_operation(bytes, Op::Jal, v, offset_to(address, pc))?,
        Mnemonic::Nop => push(bytes, &addi(0, 0, 0))?,
        Mnemonic::Ret => push(bytes, &jalr(0, 1))?,
        Mnemonic::Mv => push(bytes, &addi(v.rd, v.rs1, 0))?,
        Mnemonic::Jr => push(bytes, &jalr(0, v.rs1))?,
        Mnemonic::La => push_two(bytes, v.rd, address)?,
        Mnemonic::Li if is_short(v) => {
            push(bytes, &addi(v.rd, 0, word_from(v.number).cast_signed()))?
        }
        Mnemonic::Li => push_two(bytes, v.rd, word_from(v.number))?,
        _ => {}
    }
    Ok(())
}

fn push_operation(bytes: &mut Bytes, op: Op, v: &Operands<'_>, offset: u32) -> Result<(), Stop>
    requires { Keeps (uses (format_operands (format op)) unused) v.now }
    ensures { Appends (in_bytes (one_instruction op v.now offset)) bytes.old bytes.new result }
{
    push(bytes, &instruction(op, v, offset)?)?;
    Ok(())
}

fn push_two(bytes: &mut Bytes, rd: u8, value: u32) -> Result<(), AllocError>
    requires { rd < 32 }
    ensures { OnOk result (bytes.new ≡ bytes.old ++ bytes_of_words (two_words rd value)) }
{
    push(bytes, &lui_of(rd, value))?;
    push(bytes, &addi_of(rd, value))
}

fn push(bytes: &mut Bytes, i: &Instr) -> Result<(), AllocError>
    requires { IsValid i.now }
    ensures { OnOk result (bytes.new ≡ bytes.old ++ bytes_of_words (i.now ∷ [])) }
{
    bytes.push_word(encode(i))
}
