// The numbers of commands, each in its range.
ghost use Rattle.std.specs.Prelude.{◌≡◌, ◌↔◌, ◌≤◌, ◌<◌, IsSome, IfSome};
ghost use Rattle.diva_debug.specs.Ranges.{IsMemRange, IsStepCount};

use std::marker::Model;

/// How many instructions are stepped, or taken back, at once: 1 to 1,000,000.
#[derive(Clone, Copy, Debug, PartialEq, Eq)]
pub struct StepCount {
    number: u32,
}

impl Model for StepCount {
    ghost use Rattle.std.specs.Prelude.{ℕ};
    ghost use Rattle.diva_debug.specs.Ranges.{IsStepCount};

    ghost Value = { ℕ };

    ghost view = { λ c. c.number };

    ghost invariant = { λ c. IsStepCount c.number };

    ghost inverse = { λ n. record { number = n } };
}

impl StepCount {
    /// The number of instructions, `None` exactly where it is out of its range.
    pub fn new(number: u32) -> Option<Self>
        ensures in_range { IsSome result ↔ IsStepCount number }
        ensures value { IfSome result (λ c. c ≡ number) }
    {
        if 1 <= number && number <= 1_000_000 {
            Some(StepCount { number })
        } else {
            None
        }
    }

    /// The number.
    pub fn get(self) -> u32
        ensures value { result ≡ self }
        ensures in_range { IsStepCount result }
    {
        self.number
    }
}

/// The number of a register: 0 to 31.
#[derive(Clone, Copy, Debug, PartialEq, Eq)]
pub struct RegisterNumber {
    number: u8,
}

impl Model for RegisterNumber {
    ghost use Rattle.std.specs.Prelude.{ℕ, ◌<◌};

    ghost Value = { ℕ };

    ghost view = { λ r. r.number };

    ghost invariant = { λ r. r.number < 32 };

    ghost inverse = { λ n. record { number = n } };
}

impl RegisterNumber {
    /// The register of this number, `None` exactly where it is out of its range.
    pub fn new(number: u8) -> Option<Self>
        ensures in_range { IsSome result ↔ (number < 32) }
        ensures value { IfSome result (λ r. r ≡ number) }
    {
        if number < 32 {
            Some(RegisterNumber { number })
        } else {
            None
        }
    }

    /// The number.
    pub fn get(self) -> u8
        ensures value { result ≡ self }
        ensures in_range { result < 32 }
    {
        self.number
    }
}

/// A part of memory that is shown: 1 to 32 bytes, which end at 2^32 at the latest. They need not lie inside memory.
#[derive(Clone, Copy, Debug, PartialEq, Eq)]
pub struct MemRange {
    addr: u32,
    len: u32,
}

impl Model for MemRange {
    ghost use Rattle.diva_debug.specs.Ranges.{IsMemRange, MemRange};

    ghost Value = { MemRange };

    ghost view = { λ r. record { addr = r.addr; len = r.len } };

    ghost invariant = { λ r. IsMemRange r.addr r.len };

    ghost inverse = { λ v. record { addr = v.addr; len = v.len } };
}

impl MemRange {
    /// The `len` bytes from the address on, `None` exactly where they are too few, too many, or go past 2^32.
    pub fn new(addr: u32, len: u32) -> Option<Self>
        ensures in_range { IsSome result ↔ IsMemRange addr len }
        ensures value { IfSome result (λ r. r ≡ record { addr = addr; len = len }) }
    {
        if 1 <= len && len <= 32 && u64::from(addr) + u64::from(len) <= 1 << 32 {
            Some(MemRange { addr, len })
        } else {
            None
        }
    }

    /// The address of the first byte.
    pub fn addr(self) -> u32
        ensures value { result ≡ self.addr }
        ensures in_range { IsMemRange result self.len }
    {
        self.addr
    }

    /// The number of bytes.
    pub fn len(self) -> u32
        ensures value { result ≡ self.len }
        ensures in_range { IsMemRange self.addr result }
    {
        self.len
    }
}
