// Where the next instruction is fetched.
ghost use Rattle.std.specs.Prelude.{◌≡◌};
ghost use Rattle.diva_isa.specs.Kind.{kind};
ghost use Rattle.diva_ooo.specs.Profile.{is_taken_by, predicted, target_or_next};

use diva_decode::Instr;
use diva_isa::{Kind, kind_of};

/// Where the instruction behind one at `pc` is fetched; `decoded` is what its word says.
pub(crate) fn predicted(decoded: Option<Instr>, pc: u32) -> u32
    ensures { result ≡ predicted decoded pc }
{
    match decoded {
        Some(i) if is_taken(&i) => target_or_next(pc, pc.wrapping_add(i.imm.cast_unsigned())),
        _ => pc.wrapping_add(4),
    }
}

/// The target, or the next word where that is no multiple of 4.
fn target_or_next(pc: u32, target: u32) -> u32
    ensures { result ≡ target_or_next pc target }
{
    if target % 4 == 0 {
        target
    } else {
        pc.wrapping_add(4)
    }
}

/// Whether an instruction is predicted to go to its target.
fn is_taken(i: &Instr) -> bool
    ensures { result ≡ is_taken_by (kind i.now.op) i.now }
{
    match kind_of(i.op) {
        Kind::Jal => true,
        Kind::Branch => i.imm < 0,
        _ => false,
    }
}
