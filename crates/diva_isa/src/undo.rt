// Taking an instruction back: what it overwrites.

ghost use Rattle.std.specs.Prelude.{◌≡◌, ◌%◌, ◌<◌, ◌^◌, Some};
ghost use Rattle.diva_memory.specs.Bytes.{IsInside, low_bytes};
ghost use Rattle.diva_isa.specs.Kind.{size};
ghost use Rattle.diva_isa.specs.State.{GoesOn, byte_of, memory_of, number_of};
ghost use Rattle.diva_isa.specs.Step.{record_of, step};
ghost use Rattle.diva_isa.specs.Undo.{IsUndo, applied, restore, undo_of};
ghost use Rattle.diva_isa.specs.Inner.{IsExact, bytes_from};

use crate::due::record_of;
use crate::effect::{Effect, effect_of};
use crate::kind::Width;
use crate::look::Look;
use diva_memory::Memory;

/// What one instruction overwrites: its pc, how many bytes the output held, and the old values of the one register or the
/// bytes of memory.
#[derive(Clone, Copy, Debug, Default, PartialEq, Eq)]
pub struct Undo {
    /// The pc.
    pub pc: u32,
    /// How many bytes the output held.
    pub out_len: u32,
    /// The register that is overwritten, 0 where none is.
    pub reg: u8,
    /// The word that it held.
    pub old: u32,
    /// The address of the lowest byte that is overwritten.
    pub addr: u32,
    /// How many bytes are overwritten, 0 where none is.
    pub width: u8,
    /// The number that they were, the lowest byte first.
    pub bytes: u32,
}

impl Undo {
    ghost use Rattle.std.specs.Prelude.{◌≡◌, ◌≢◌, ◌≤◌};
    ghost use Rattle.diva_memory.specs.Bytes.{IsInside, low_bytes, put_all};

    /// Puts the bytes back that were overwritten, if any were.
    #[tactic(auto, using(crate::proofs::Undoing::length_low))]
    pub fn put_bytes(&self, memory: &mut Memory)
        requires few { self.now.width ≤ 4 }
        requires inside { self.now.width ≢ 0 → IsInside memory.old self.now.addr self.now.width }
        ensures { memory.new ≡ put_all memory.old self.now.addr (low_bytes self.now.width self.now.bytes) }
    {
        if self.width > 0 {
            let bytes = self.bytes.to_le_bytes();
            memory.put_all(self.addr, &bytes[..usize::from(self.width)]);
        }
    }
}

/// What the next instruction of a state overwrites. Putting it back after the step leads to the state again.
#[tactic(auto, using(crate::proofs::Undoing::back_over, crate::proofs::Undoing::is_undo))]
pub fn undo_of<L: Look>(state: &L) -> Undo
    requires { GoesOn (L.shows state.now) }
    ensures value { result ≡ undo_of (L.shows state.now) }
    ensures back { let s = L.shows state.now in restore (step s) result ≡ s }
    ensures last { IsUndo (step (L.shows state.now)) result }
{
    overwritten(state)
}

/// The same. What is read of memory is read byte by byte, so that it is known to be bytes.
#[tactic(auto, using(crate::proofs::Room::room, crate::proofs::Room::aligned_store), unfolding(crate::specs::Undo::undo_of))]
fn overwritten<L: Look>(state: &L) -> Undo
    ensures value { result ≡ undo_of (L.shows state.now) }
    ensures exact { let s = L.shows state.now in IsExact s (applied (record_of s)) }
{
    let r = record_of(state);
    let pc_alone = Undo {
        pc: state.pc(),
        out_len: state.out_len(),
        ..Undo::default()
    };
    if r.end != 0 {
        return pc_alone;
    }
    match effect_of(&r) {
        Effect::Nothing => pc_alone,
        Effect::Puts(_) => pc_alone,
        Effect::Writes { rd, .. } => Undo {
            reg: rd,
            old: state.reg(rd),
            ..pc_alone
        },
        Effect::Stores { width, addr, .. } => Undo {
            addr,
            width: width.size() as u8,
            bytes: number_at(state, addr, width),
            ..pc_alone
        },
    }
}

/// The number that the bytes of this width from an address on are, which is a multiple of the width. All of them are
/// inside.
fn number_at<L: Look>(state: &L, addr: u32, width: Width) -> u32
    requires inside { IsInside (memory_of (L.shows state.now)) addr (size width) }
    requires aligned { addr % size width ≡ 0 }
    ensures number { number_of (L.shows state.now) (size width) addr ≡ Some result }
    ensures bytes { low_bytes (size width) result ≡ bytes_from (memory_of (L.shows state.now)) addr (size width) }
{
    match width {
        Width::Byte => u32::from(byte_at(state, addr)),
        Width::Half => u32::from(u16::from_le_bytes([
            byte_at(state, addr),
            byte_at(state, addr + 1),
        ])),
        Width::Word => u32::from_le_bytes([
            byte_at(state, addr),
            byte_at(state, addr + 1),
            byte_at(state, addr + 2),
            byte_at(state, addr + 3),
        ]),
    }
}

/// The byte at an address, which is inside.
fn byte_at<L: Look>(state: &L, addr: u32) -> u8
    requires { IsInside (memory_of (L.shows state.now)) addr 1 }
    ensures value { byte_of (L.shows state.now) addr ≡ Some result }
    ensures small { result < 2 ^ 8 }
{
    state.byte(addr).unwrap_or(0)
}
