// The traps by number.

ghost use Rattle.std.specs.Prelude.{◌≡◌};
ghost use Rattle.diva_isa.specs.Trap.{trap_number};

/// Why the machine ends other than by a halt. Up to `StoreAccessFault` they are numbered as the causes of the RISC-V
/// Privileged ISA, "Machine Cause Register"; the others are this machine's own.
#[derive(Clone, Copy)]
pub enum Trap {
    /// The target of a jump, or of a branch that is taken, is no multiple of 4.
    InstructionMisaligned,
    /// No word stands at the pc.
    InstructionAccessFault,
    /// The word is not one of the table.
    IllegalInstruction,
    /// EBREAK.
    Breakpoint,
    /// The address of a load is no multiple of its width.
    LoadMisaligned,
    /// A byte of a load is outside memory.
    LoadAccessFault,
    /// The address of a store is no multiple of its width.
    StoreMisaligned,
    /// A byte of a store is outside memory.
    StoreAccessFault,
    /// ECALL asks for a service that is neither 1 nor 93.
    CallNotServed,
    /// ECALL puts a byte, and the output is full.
    OutputFull,
}

impl Trap {
    /// The number of the trap, 0 to 9.
    pub fn number(self) -> u32
        ensures { result ≡ trap_number self }
    {
        match self {
            Trap::InstructionMisaligned => 0,
            Trap::InstructionAccessFault => 1,
            Trap::IllegalInstruction => 2,
            Trap::Breakpoint => 3,
            Trap::LoadMisaligned => 4,
            Trap::LoadAccessFault => 5,
            Trap::StoreMisaligned => 6,
            Trap::StoreAccessFault => 7,
            Trap::CallNotServed => 8,
            Trap::OutputFull => 9,
        }
    }
}
