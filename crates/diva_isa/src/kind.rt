// The kinds of operations, and how many bytes a load or a store moves.

ghost use Rattle.std.specs.Prelude.{◌≡◌};
ghost use Rattle.diva_isa.specs.Kind.{kind, size};

use diva_decode::Op;

/// How much a load or a store moves.
#[derive(Clone, Copy, Debug, PartialEq, Eq)]
pub enum Width {
    /// 1 byte.
    Byte,
    /// 2 bytes.
    Half,
    /// 4 bytes.
    Word,
}

impl Width {
    /// How many bytes a width is: 1, 2 or 4.
    pub fn size(self) -> u32
        ensures { result ≡ size self }
    {
        match self {
            Width::Byte => 1,
            Width::Half => 2,
            Width::Word => 4,
        }
    }
}

/// A kind of operation. The records of one kind are made alike.
#[derive(Clone, Copy, Debug, PartialEq, Eq)]
pub enum Kind {
    /// LUI.
    Lui,
    /// AUIPC.
    Auipc,
    /// JAL.
    Jal,
    /// JALR.
    Jalr,
    /// A conditional branch.
    Branch,
    /// A load of so many bytes.
    Load(Width),
    /// A store of so many bytes.
    Store(Width),
    /// An operation on a register and an immediate.
    OpImm,
    /// An operation on two registers.
    OpReg,
    /// FENCE.
    Fence,
    /// ECALL.
    Ecall,
    /// EBREAK.
    Ebreak,
    /// A read of `instret`: RDINSTRET, RDINSTRETH.
    Counter,
}

impl Kind {
    ghost use Rattle.std.specs.Prelude.{◌≡◌};
    ghost use Rattle.diva_isa.specs.Kind.{moves_memory};

    /// Whether it is a load or a store.
    #[inline]
    pub fn moves_memory(self) -> bool
        ensures { result ≡ moves_memory self }
    {
        matches!(self, Kind::Load(_) | Kind::Store(_))
    }
}

/// The kind of an operation.
#[inline]
pub fn kind_of(op: Op) -> Kind
    ensures { result ≡ kind op }
{
    match op {
        Op::Lui => Kind::Lui,
        Op::Auipc => Kind::Auipc,
        Op::Jal => Kind::Jal,
        Op::Jalr => Kind::Jalr,
        Op::Beq | Op::Bne | Op::Blt | Op::Bge | Op::Bltu | Op::Bgeu => Kind::Branch,
        Op::Lb | Op::Lbu => Kind::Load(Width::Byte),
        Op::Lh | Op::Lhu => Kind::Load(Width::Half),
        Op::Lw => Kind::Load(Width::Word),
        Op::Sb => Kind::Store(Width::Byte),
        Op::Sh => Kind::Store(Width::Half),
        Op::Sw => Kind::Store(Width::Word),
        Op::Addi
        | Op::Slti
        | Op::Sltiu
        | Op::Xori
        | Op::Ori
        | Op::Andi
        | Op::Slli
        | Op::Srli
        | Op::Srai => Kind::OpImm,
        Op::Fence => Kind::Fence,
        Op::Ecall => Kind::Ecall,
        Op::Ebreak => Kind::Ebreak,
        Op::Rdinstret | Op::Rdinstreth => Kind::Counter,
        _ => Kind::OpReg,
    }
}
