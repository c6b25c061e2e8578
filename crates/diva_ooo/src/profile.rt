// What the core notes of an instruction that it fetches.
ghost use Rattle.std.specs.Prelude.{◌≡◌, ℕ, List, length, true, Option, IfSome, Some};
ghost use Rattle.std.specs.Option.{option_and_then};
ghost use Rattle.diva_decode.specs.Table.{HasRegisters, row_of};
ghost use Rattle.diva_isa.specs.Kind.{kind};
ghost use Rattle.diva_ooo.specs.WindowEntry.{WindowEntry};
ghost use Rattle.diva_ooo.specs.Board.{is_loading};
ghost use Rattle.diva_ooo.specs.Issue.{are_stored, is_free, is_storing};
ghost use Rattle.diva_ooo.specs.Known.{HasSources};
ghost use Rattle.diva_ooo.specs.Profile.{class_of, cycles_of, profile, profile_by, profiled};

use diva_decode::{Instr, Op};

/// What else than its sources an instruction waits for.
#[derive(Clone, Copy, Debug, PartialEq, Eq)]
pub enum Class {
    /// Nothing.
    Plain,
    /// A load: each older store has to be done.
    Loads,
    /// A store: nothing, but younger loads wait for it.
    Stores,
    /// A call, or a read of `instret`: it has to be the oldest.
    Oldest,
}

impl Class {
    /// Whether it is a store.
    pub fn is_storing(self) -> bool
        ensures { result ≡ is_storing self }
    {
        matches!(self, Class::Stores)
    }

    /// Whether it is a load.
    pub fn is_loading(self) -> bool
        ensures { result ≡ is_loading self }
    {
        matches!(self, Class::Loads)
    }

    /// Whether an entry at a place has what else it waits for. It is asked of a load only where each older store is done.
    pub fn is_free_at(self, at: usize) -> bool
        ensures { (older : List WindowEntry) → length older ≡ at → (is_loading self ≡ true → are_stored older ≡ true)
            → result ≡ is_free self older }
    {
        match self {
            Class::Plain | Class::Loads | Class::Stores => true,
            Class::Oldest => at == 0,
        }
    }
}

/// What the core notes of an instruction that it fetches.
#[derive(Clone, Copy, Debug, PartialEq, Eq)]
pub struct Profile {
    /// The first register that it reads, 0 to 31; x0 where there is none.
    pub rs1: u8,
    /// The second register that it reads, 0 to 31; x0 where there is none.
    pub rs2: u8,
    /// The register that it writes, 0 to 31; x0 where there is none.
    pub rd: u8,
    /// What else it waits for.
    pub class: Class,
    /// How many cycles it runs: 1, 2, 3 or 8.
    pub cycles: u8,
}

impl Profile {
    /// The profile of an instruction; `decoded` is what a word says, if there is one.
    #[inline(always)]
    pub fn of(decoded: Option<Instr>) -> Profile
        requires registers { IfSome decoded HasRegisters }
        requires says { (word : Option ℕ) × (decoded ≡ option_and_then row_of word) }
        ensures value { result ≡ profile_by decoded }
        ensures below { HasSources result }
    {
        match decoded {
            Some(i) => Profile::by(&i),
            None => Profile::with(0, 0, 0, Class::Plain, 1),
        }
    }

    /// An instruction has x0 where its format has no register: that is what the words of the table say.
    #[inline(always)]
    fn by(i: &Instr) -> Profile
        requires registers { HasRegisters i.now }
        requires says { (word : ℕ) × (row_of word ≡ Some i.now) }
        ensures value { result ≡ profile (kind i.now.op) i.now }
        ensures below { HasSources result }
    {
        let (class, cycles) = needs_of(i.op);
        Profile::with(i.rs1, i.rs2, i.rd, class, cycles)
    }

    fn with(rs1: u8, rs2: u8, rd: u8, class: Class, cycles: u8) -> Profile
        ensures { result ≡ profiled rs1 rs2 rd class cycles }
    {
        Profile {
            rs1,
            rs2,
            rd,
            class,
            cycles,
        }
    }
}

/// What else than its sources an operation waits for, and the cycles that it runs.
fn needs_of(op: Op) -> (Class, u8)
    ensures class { result.0 ≡ class_of (kind op) }
    ensures cycles { result.1 ≡ cycles_of op }
{
    match op {
        Op::Lb | Op::Lh | Op::Lw | Op::Lbu | Op::Lhu => (Class::Loads, 2),
        Op::Sb | Op::Sh | Op::Sw => (Class::Stores, 1),
        Op::Mul | Op::Mulh | Op::Mulhsu | Op::Mulhu => (Class::Plain, 3),
        Op::Div | Op::Divu | Op::Rem | Op::Remu => (Class::Plain, 8),
        Op::Ecall | Op::Rdinstret | Op::Rdinstreth => (Class::Oldest, 1),
        _ => (Class::Plain, 1),
    }
}
