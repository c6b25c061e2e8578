// What is wrong with a line.
ghost use Rattle.std.specs.Prelude.{◌≡◌};
ghost use Rattle.diva_claims.specs.Wrong.{first_wrong, other_end, other_field, other_mask, other_register};

use crate::said::{Said, SaidEnd, done_by, mask_stored, register_written};
use diva_core::{Diff, Field};
use diva_isa::{End, Record};

/// What is wrong with a line of a log: the first of what it says that is not due, in the order of its words.
#[derive(Clone, Copy, Debug, PartialEq, Eq)]
pub enum Wrong {
    /// A field of the record is another one.
    Field(Diff),
    /// Some trap is said, and the instruction does not trap: its end is due so.
    NoTrap { due: u32 },
    /// Another register is said to have been written; 0 stands for none.
    Register { said: u32, due: u32 },
    /// Other bytes are said to have been written of the word in which a store lies; the lowest in bit 0.
    Mask { said: u32, due: u32 },
}

impl Said {
    /// What is wrong with the line if this record is due, `None` exactly if all that it says is due.
    #[tactic(auto, using(crate::proofs::Wronging::in_order), unfolding(crate::specs::Wrong::first_wrong))]
    pub fn first_wrong(self, due: &Record) -> Option<Wrong>
        ensures { result ≡ first_wrong self due.now }
    {
        let effect = done_by(due);
        other_field(Field::Pc, self.pc, due.pc)
            .or(other_field(Field::Word, self.word, due.word))
            .or(other_field(Field::Src1, self.src1, due.src1))
            .or(other_field(Field::Src2, self.src2, due.src2))
            .or(other_field(Field::Addr, self.addr, due.addr))
            .or(other_field(Field::Value, self.value, due.value))
            .or(other_field(Field::Next, self.next, due.next))
            .or(other_end(self.end, due.end))
            .or(other_register(self.rd, register_written(effect)))
            .or(other_mask(self.mask, mask_stored(effect)))
    }
}

/// A field of the record that is said and is another one.
fn other_field(field: Field, said: Option<u32>, due: u32) -> Option<Wrong>
    ensures { result ≡ other_field field said due }
{
    match said {
        Some(number) if number != due => Some(Wrong::Field(Diff::new(field, number, due))),
        _ => None,
    }
}

/// An end that is said and is another one; or some trap, if none is due.
fn other_end(said: Option<SaidEnd>, due: u32) -> Option<Wrong>
    ensures { result ≡ other_end said due }
{
    match said {
        None => None,
        Some(SaidEnd::Number(end)) => other_field(Field::End, Some(end), due),
        Some(SaidEnd::SomeTrap) => match End::of(due) {
            End::Trap(_) => None,
            End::GoesOn | End::Halt(_) => Some(Wrong::NoTrap { due }),
        },
    }
}

/// Another register that is said to have been written.
fn other_register(said: Option<u32>, due: u32) -> Option<Wrong>
    ensures { result ≡ other_register said due }
{
    match said {
        Some(said) if said != due => Some(Wrong::Register { said, due }),
        _ => None,
    }
}

/// Other bytes that are said to have been written.
fn other_mask(said: Option<u32>, due: u32) -> Option<Wrong>
    ensures { result ≡ other_mask said due }
{
    match said {
        Some(said) if said != due => Some(Wrong::Mask { said, due }),
        _ => None,
    }
}
