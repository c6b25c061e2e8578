// The immediate that a word holds, by its format. (RISC-V Unprivileged ISA, RV32I 2.1, "Immediate Encoding Variants".)

ghost use Rattle.std.specs.Prelude.{◌≡◌, ◌^◌, ◌<◌};
ghost use Rattle.diva_decode.specs.Fields.{signed, imm_i, imm_s, imm_b, imm_u, imm_j};

/// Reads the low `bits` bits of a number as two's complement.
fn sign_extend(value: u32, bits: u32) -> i32
    requires low { 0 < bits }
    requires high { bits < 32 }
    requires fits { value < 2 ^ bits }
    ensures { result ≡ signed bits value }
{
    let sign = 1 << (bits - 1);
    if value < sign {
        value as i32
    } else {
        (value - sign) as i32 - sign as i32
    }
}

pub(crate) fn imm_i(word: u32) -> i32
    ensures { result ≡ imm_i word }
{
    word.cast_signed() >> 20
}

pub(crate) fn imm_s(word: u32) -> i32
    ensures { result ≡ imm_s word }
{
    sign_extend(word >> 25 << 5 | word >> 7 & 0x1f, 12)
}

pub(crate) fn imm_b(word: u32) -> i32
    ensures { result ≡ imm_b word }
{
    let bits = word >> 31 << 12
        | ((word >> 7 & 1) << 11 | ((word >> 25 & 0x3f) << 5 | (word >> 8 & 0xf) << 1));
    sign_extend(bits, 13)
}

pub(crate) fn imm_u(word: u32) -> i32
    ensures { result ≡ imm_u word }
{
    (word & 0xffff_f000).cast_signed()
}

pub(crate) fn imm_j(word: u32) -> i32
    ensures { result ≡ imm_j word }
{
    let bits = word >> 31 << 20
        | ((word >> 12 & 0xff) << 12 | ((word >> 20 & 1) << 11 | (word >> 21 & 0x3ff) << 1));
    sign_extend(bits, 21)
}
