// How a claim differs from the due record.
ghost use Rattle.std.specs.Prelude.{◌≡◌, ◌≤◌, None, Some, IfSome, length};
ghost use Rattle.diva_core.specs.Difference.{all_fields, difference_in, field_name, field_of, first_difference, IsDifference};

use diva_isa::Record;

/// The fields of a record, in the order in which they are compared.
#[derive(Clone, Copy, Debug, PartialEq, Eq)]
pub enum Field {
    /// `pc`: the instruction's address.
    Pc,
    /// `word`: the instruction's word.
    Word,
    /// `src1`: the first word that it reads.
    Src1,
    /// `src2`: the second word that it reads.
    Src2,
    /// `addr`: the address of a load or a store.
    Addr,
    /// `value`: its result.
    Value,
    /// `next`: the address of the next instruction.
    Next,
    /// `end`: whether it ends the machine, and how.
    End,
}

impl Field {
    /// All fields, in their order.
    pub const ALL: [Field; 8] = [
        Field::Pc,
        Field::Word,
        Field::Src1,
        Field::Src2,
        Field::Addr,
        Field::Value,
        Field::Next,
        Field::End,
    ];

    /// The field of a record.
    pub fn of(self, r: &Record) -> u32
        ensures { result ≡ field_of self r.now }
    {
        match self {
            Field::Pc => r.pc,
            Field::Word => r.word,
            Field::Src1 => r.src1,
            Field::Src2 => r.src2,
            Field::Addr => r.addr,
            Field::Value => r.value,
            Field::Next => r.next,
            Field::End => r.end,
        }
    }

    /// How texts call the field: in lower case, at most five letters.
    pub fn name(self) -> &'static [u8]
        ensures name { result.now ≡ field_name self }
        ensures short { length result.now ≤ 5 }
    {
        match self {
            Field::Pc => b"pc",
            Field::Word => b"word",
            Field::Src1 => b"src1",
            Field::Src2 => b"src2",
            Field::Addr => b"addr",
            Field::Value => b"value",
            Field::Next => b"next",
            Field::End => b"end",
        }
    }
}

/// A field in which a claim differs: what was claimed, and what is due.
#[derive(Clone, Copy, Debug, PartialEq, Eq)]
pub struct Diff {
    /// The field.
    pub field: Field,
    /// What the claim says.
    pub claimed: u32,
    /// What the due record says.
    pub due: u32,
}

impl Diff {
    /// A difference in a field.
    #[inline(always)]
    pub fn new(field: Field, claimed: u32, due: u32) -> Diff
        ensures { result ≡ record { field = field; claimed = claimed; due = due } }
    {
        Diff {
            field,
            claimed,
            due,
        }
    }
}

/// The first field in which a claim differs from the due record, `None` exactly where they are equal.
#[tactic(auto, using(crate::proofs::Differing::difference_names), unfolding(crate::specs::Difference::first_difference))]
pub fn first_difference(claim: &Record, due: &Record) -> Option<Diff>
    ensures first { result ≡ first_difference claim.now due.now }
    ensures named { IfSome result (IsDifference claim.now due.now) }
{
    difference_in(&Field::ALL, claim, due)
}

/// The first of some fields in which a claim differs from the due record, `None` where it does in none of them.
pub fn difference_in(fields: &[Field], claim: &Record, due: &Record) -> Option<Diff>
    ensures { result ≡ difference_in fields.now claim.now due.now }
{
    for field in fields {
        let (claimed, due) = (field.of(claim), field.of(due));
        if claimed != due {
            return Some(Diff {
                field: *field,
                claimed,
                due,
            });
        }
    }
    None
}
