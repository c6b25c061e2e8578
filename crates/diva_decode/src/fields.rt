// The fields of a word that stand in one place in all formats.

ghost use Rattle.std.specs.Prelude.{◌≡◌};
ghost use Rattle.diva_decode.specs.Fields.{opcode, rd, funct3, rs1, rs2, funct7, csr};

pub(crate) fn opcode(word: u32) -> u32
    ensures { result ≡ opcode word }
{
    word & 0x7f
}

pub(crate) fn rd(word: u32) -> u8
    ensures { result ≡ rd word }
{
    (word >> 7 & 0x1f) as u8
}

pub(crate) fn funct3(word: u32) -> u32
    ensures { result ≡ funct3 word }
{
    word >> 12 & 0x7
}

pub(crate) fn rs1(word: u32) -> u8
    ensures { result ≡ rs1 word }
{
    (word >> 15 & 0x1f) as u8
}

pub(crate) fn rs2(word: u32) -> u8
    ensures { result ≡ rs2 word }
{
    (word >> 20 & 0x1f) as u8
}

pub(crate) fn funct7(word: u32) -> u32
    ensures { result ≡ funct7 word }
{
    word >> 25
}

/// The number of a control and status register.
pub(crate) fn csr(word: u32) -> u32
    ensures { result ≡ csr word }
{
    word >> 20
}
