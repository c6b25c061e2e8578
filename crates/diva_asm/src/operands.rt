// Registers, numbers and places.
ghost use Rattle.std.specs.Prelude.{map, ◌≡◌, ◌<◌, ◌%◌, ◌^◌, ℤ, pos, neg_ℤ, ◌≤ℤ◌, ◌<ℤ◌, IfSome};
ghost use Rattle.std.specs.Option.{ok_or, option_map};
ghost use Rattle.diva_asm.specs.Inner.{registers_with};
ghost use Rattle.diva_asm.specs.declared.fault.Kind.TheVariants.{NoRegister, BadNumber};
ghost use Rattle.diva_asm.specs.Operands.{Place as Place, register_of, digits_of, unsigned_of, operand_number, number_in, word_from, offset_of, place_at, place_of};

use crate::fault::Kind;
use crate::names::named;
use crate::texts::{name_len, trim};
use diva_outside::{decimal, hex};
use std::marker::Model;

/// The largest number.
const LARGEST: i64 = 0xffff_ffff;

/// The least number.
const LEAST: i64 = -0x8000_0000;

/// The registers' own names.
static X_NAMES: [(&[u8], u8); 32] = [
    (b"x0", 0),
    (b"x1", 1),
    (b"x2", 2),
    (b"x3", 3),
    (b"x4", 4),
    (b"x5", 5),
    (b"x6", 6),
    (b"x7", 7),
    (b"x8", 8),
    (b"x9", 9),
    (b"x10", 10),
    (b"x11", 11),
    (b"x12", 12),
    (b"x13", 13),
    (b"x14", 14),
    (b"x15", 15),
    (b"x16", 16),
    (b"x17", 17),
    (b"x18", 18),
    (b"x19", 19),
    (b"x20", 20),
    (b"x21", 21),
    (b"x22", 22),
    (b"x23", 23),
    (b"x24", 24),
    (b"x25", 25),
    (b"x26", 26),
    (b"x27", 27),
    (b"x28", 28),
    (b"x29", 29),
    (b"x30", 30),
    (b"x31", 31),
];

/// The names that begin with `a`.
static A_NAMES: [(&[u8], u8); 8] = [
    (b"a0", 10),
    (b"a1", 11),
    (b"a2", 12),
    (b"a3", 13),
    (b"a4", 14),
    (b"a5", 15),
    (b"a6", 16),
    (b"a7", 17),
];

/// The names that begin with `s`.
static S_NAMES: [(&[u8], u8); 13] = [
    (b"sp", 2),
    (b"s0", 8),
    (b"s1", 9),
    (b"s2", 18),
    (b"s3", 19),
    (b"s4", 20),
    (b"s5", 21),
    (b"s6", 22),
    (b"s7", 23),
    (b"s8", 24),
    (b"s9", 25),
    (b"s10", 26),
    (b"s11", 27),
];

/// The names that begin with `t`.
static T_NAMES: [(&[u8], u8); 8] = [
    (b"tp", 4),
    (b"t0", 5),
    (b"t1", 6),
    (b"t2", 7),
    (b"t3", 28),
    (b"t4", 29),
    (b"t5", 30),
    (b"t6", 31),
];

/// A label, or none, and a number to be added.
#[derive(Drop)]
pub(crate) struct Place<'a> {
    label: Option<&'a [u8]>,
    offset: i64,
}

impl<'a> Model for Place<'a> {
    ghost use Rattle.std.specs.Option.{option_map};
    ghost use Rattle.diva_asm.specs.Operands.{Place as Place};

    ghost Value = { Place };

    ghost view = { λ p. record { label = option_map (λ name. name.now) p.label; offset = p.offset } };
}

impl<'a> Place<'a> {
    pub fn new(label: Option<&'a [u8]>, offset: i64) -> Self
        ensures { result ≡ place_at (option_map (λ name. name.now) label.entry) offset }
    {
        Place { label, offset }
    }

    pub fn label(&self) -> Option<&'a [u8]>
        ensures { option_map (λ name. name.now) result ≡ self.now.label }
    {
        self.label
    }

    pub fn offset(&self) -> i64
        ensures { result ≡ self.now.offset }
    {
        self.offset
    }
}

/// What a statement's operands say; what none of them says is 0.
#[derive(Drop)]
pub(crate) struct Operands<'a> {
    pub rd: u8,
    pub rs1: u8,
    pub rs2: u8,
    pub number: i64,
    pub place: Place<'a>,
}

/// The register of a name.
pub(crate) fn register(word: &[u8]) -> Result<u8, Kind>
    ensures { result ≡ ok_or (register_of word.now) NoRegister }
{
    let [first, ..] = word else {
        return Err(Kind::NoRegister);
    };
    named(names_with(*first), word).ok_or(Kind::NoRegister)
}

/// The names of registers that begin with a byte.
fn names_with(first: u8) -> &'static [(&'static [u8], u8)]
    ensures { map (λ name. (name.0.now, name.1)) result.now ≡ registers_with first }
{
    match first {
        b'x' => &X_NAMES,
        b'a' => &A_NAMES,
        b's' => &S_NAMES,
        b't' => &T_NAMES,
        b'z' => &[(b"zero", 0)],
        b'r' => &[(b"ra", 1)],
        b'g' => &[(b"gp", 3)],
        b'f' => &[(b"fp", 8)],
        _ => &[],
    }
}

/// A number without sign: `0x` and hex digits, or decimal digits.
#[tactic(auto, unfolding(crate::specs::Operands::unsigned_of))]
fn unsigned(text: &[u8]) -> Option<i64>
    ensures value { result ≡ option_map (λ n. pos n) (unsigned_of text.now) }
    ensures range { IfSome result (λ z. (pos 0 ≤ℤ z) × (z <ℤ pos (2 ^ 32))) }
{
    match digits(text) {
        Some(number) if number <= u64::from(u32::MAX) => Some(number as i64),
        _ => None,
    }
}

fn digits(text: &[u8]) -> Option<u64>
    ensures { result ≡ digits_of text.now }
{
    if text.starts_with(b"0x") {
        match hex(&text[2..]) {
            Some(number) => Some(u64::from(number)),
            None => None,
        }
    } else {
        decimal(text)
    }
}

#[tactic(auto, unfolding(crate::specs::Operands::operand_number))]
fn number(text: &[u8]) -> Option<i64>
    ensures { result ≡ operand_number text.now }
{
    if text.starts_with(b"-") {
        match unsigned(&text[1..]) {
            Some(number) => Some(-number),
            None => None,
        }
    } else {
        unsigned(text)
    }
}

/// The number, where it is from low to high.
#[tactic(auto, unfolding(crate::specs::Operands::number_in))]
pub(crate) fn number_in(low: i64, high: i64, text: &[u8]) -> Result<i64, Kind>
    ensures { result ≡ ok_or (number_in low high text.now) BadNumber }
{
    match number(text) {
        Some(number) if low <= number && number <= high => Ok(number),
        _ => Err(Kind::BadNumber),
    }
}

/// The number modulo 2 ^ 32.
pub(crate) fn word_from(number: i64) -> u32
    ensures { result ≡ word_from number }
{
    (number.cast_unsigned() % (1 << 32)) as u32
}

/// What may follow a name: nothing, or a sign and a number without sign.
#[tactic(auto, unfolding(crate::specs::Operands::offset_of))]
fn offset(text: &[u8]) -> Option<i64>
    ensures { result ≡ offset_of text.now }
{
    let [sign, others @ ..] = text else {
        return Some(0);
    };
    let number = unsigned(trim(others))?;
    match sign {
        b'+' => Some(number),
        b'-' => Some(-number),
        _ => None,
    }
}

/// A number, a name, or a name with a number added or taken away.
#[tactic(auto, unfolding(crate::specs::Operands::place_of))]
pub(crate) fn read_place(text: &[u8]) -> Result<Place<'_>, Kind>
    ensures { result ≡ ok_or (place_of text.now) BadNumber }
{
    let len = name_len(text);
    if len == 0 {
        Ok(Place::new(None, number_in(LEAST, LARGEST, text)?))
    } else {
        let offset = offset(&text[len..]).ok_or(Kind::BadNumber)?;
        Ok(Place::new(Some(&text[..len]), offset))
    }
}
