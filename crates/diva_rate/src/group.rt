// Groups of injections.
ghost use Rattle.std.specs.Prelude.{◌≡◌, ◌≤◌, ◌<◌, length, IfOk};
ghost use Rattle.diva_rate.specs.Groups.{group_kind, is_bit, is_field, is_in, lines_in};

use crate::injection::{FaultModel, Injection};
use diva_core::Field;
use diva_outside::is_word;
use std::alloc::{AllocError, Global};

/// Injections that are counted together.
#[derive(Clone, Copy, Debug, PartialEq, Eq)]
pub enum Group {
    /// All of them.
    All,
    /// Those of a model.
    InModel(FaultModel),
    /// Those in a field.
    InField(Field),
    /// Those in a bit, 0 to 31.
    InBit(u8),
}

/// All groups, in their order.
pub const GROUPS: [Group; 48] = [
    Group::All,
    Group::InModel(FaultModel::Flip),
    Group::InModel(FaultModel::Set),
    Group::InModel(FaultModel::Lose),
    Group::InModel(FaultModel::Double),
    Group::InModel(FaultModel::Hush),
    Group::InModel(FaultModel::Stuck0),
    Group::InModel(FaultModel::Stuck1),
    Group::InField(Field::Pc),
    Group::InField(Field::Word),
    Group::InField(Field::Src1),
    Group::InField(Field::Src2),
    Group::InField(Field::Addr),
    Group::InField(Field::Value),
    Group::InField(Field::Next),
    Group::InField(Field::End),
    Group::InBit(0),
    Group::InBit(1),
    Group::InBit(2),
    Group::InBit(3),
    Group::InBit(4),
    Group::InBit(5),
    Group::InBit(6),
    Group::InBit(7),
    Group::InBit(8),
    Group::InBit(9),
    Group::InBit(10),
    Group::InBit(11),
    Group::InBit(12),
    Group::InBit(13),
    Group::InBit(14),
    Group::InBit(15),
    Group::InBit(16),
    Group::InBit(17),
    Group::InBit(18),
    Group::InBit(19),
    Group::InBit(20),
    Group::InBit(21),
    Group::InBit(22),
    Group::InBit(23),
    Group::InBit(24),
    Group::InBit(25),
    Group::InBit(26),
    Group::InBit(27),
    Group::InBit(28),
    Group::InBit(29),
    Group::InBit(30),
    Group::InBit(31),
];

impl Group {
    /// By what the group is made, as texts call it.
    pub fn kind(self) -> &'static [u8]
        ensures kind { result.now ≡ group_kind self }
        ensures short { length result.now ≤ 5 }
    {
        match self {
            Group::All => b"all",
            Group::InModel(_) => b"model",
            Group::InField(_) => b"field",
            Group::InBit(_) => b"bit",
        }
    }

    /// Whether the injection is in the group.
    pub fn has(self, line: &Injection) -> bool
        ensures { result ≡ is_in self line.now }
    {
        match self {
            Group::All => true,
            Group::InModel(model) => is_word(line.model.name(), model.name()),
            Group::InField(field) => is_field(field, line.field),
            Group::InBit(bit) => is_bit(bit, line.bit),
        }
    }

    /// The lines of the group, in their order.
    pub fn lines_in(self, alloc: Global, lines: &[Injection]) -> Result<Vec<Injection>, AllocError>
        ensures lines { IfOk result (λ kept. kept.items ≡ lines_in self lines.now) }
        ensures few { IfOk result (λ kept. length kept.items ≤ length lines.now) }
    {
        let mut kept = Vec::new(alloc);
        for line in lines {
            if self.has(line) {
                kept.push(*line)?;
            }
        }
        Ok(kept)
    }
}

/// Whether there is a field, and it is this one.
fn is_field(field: Field, other: Option<Field>) -> bool
    ensures { result ≡ is_field field other }
{
    match other {
        Some(other) => is_word(other.name(), field.name()),
        None => false,
    }
}

/// Whether there is a bit, and it is this one.
fn is_bit(bit: u8, other: Option<u8>) -> bool
    ensures { result ≡ is_bit bit other }
{
    match other {
        Some(other) => other == bit,
        None => false,
    }
}
