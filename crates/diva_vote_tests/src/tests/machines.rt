// A small program, machines that begin with words, and their cores.
ghost use Rattle.std.specs.Prelude.{◌≡◌, [], IfOk};

use diva_core::{Claims, Core, Told, View};
use diva_image::Image;
use diva_machine::{Config, Machine};
use diva_tape::{Echo, Flood, Lockstep, Noise, Scalar};
use diva_test_programs::{ADDS, ASKS, HALTS};
use std::alloc::{AllocError, Global};
use std::test::Fail;

/// The bytes of memory.
pub(crate) const SIZE: u32 = 128;

/// A loop that goes six times: it multiplies, stores the product, loads its lowest byte, adds that to a sum, stores the sum's low
/// half and loads it, and puts the sum's lowest byte. Then it halts with that byte.
///
/// The product is 6, 30, 120, 360, 720 and 720, of which the lowest bytes are 6, 30, 120, 104, 208 and 208. So the sum is 6, 36,
/// 156, 260, 468 and 676. Two instructions are before the loop, ten are in it, and two behind it: 64 are counted.
pub(crate) const PRODUCTS: [u32; 14] = [
    0x0060_0293, // addi x5, x0, 6
    0x0010_0313, // addi x6, x0, 1
    0x0253_0333, // mul x6, x6, x5, to which the branch leads
    0x0660_2023, // sw x6, 96(x0)
    0x0600_4383, // lbu x7, 96(x0)
    0x0075_0533, // add x10, x10, x7
    0x06a0_1223, // sh x10, 100(x0)
    0x0640_1403, // lh x8, 100(x0)
    0x0010_0893, // addi x17, x0, 1
    0x0000_0073, // ecall
    0xfff2_8293, // addi x5, x5, -1
    0xfc02_9ee3, // bne x5, x0, -36
    0x05d0_0893, // addi x17, x0, 93
    0x0000_0073, // ecall
];

/// How many instructions of `PRODUCTS` are counted.
pub(crate) const PRODUCTS_COUNT: u64 = 64;

/// What `PRODUCTS` puts: the lowest bytes of the sums.
pub(crate) const PRODUCTS_OUTPUT: [u8; 6] = [6, 36, 156, 4, 212, 164];

/// A machine that begins with these words, the first of which is the first instruction.
pub(crate) fn machine_of(alloc: Global, words: &[u32], config: Config) -> Result<Machine, Fail>
    ensures { IfOk result (λ m. m.timed.cycles ≡ 0) }
{
    let mut bytes = Vec::new(alloc);
    for word in words {
        bytes.extend_from_slice(&word.to_le_bytes())?;
    }
    let image = Image::new(0, SIZE, 0, bytes).ok_or("no image")?;
    Ok(Machine::new(alloc, &image, config)?)
}

/// Which core hands over the claims.
#[derive(Clone, Copy, Debug)]
pub(crate) enum Kind {
    Lockstep,
    Scalar,
    Noise,
    Echo,
    Flood,
    /// The first two instructions of `FIVE` in the first cycle, and the third in the second.
    Pair,
}

/// One of these cores.
#[derive(Drop)]
pub(crate) enum AnyCore {
    Lockstep,
    Scalar(Scalar),
    Noise(Noise),
    Echo,
    Flood,
    Pair,
}

impl AnyCore {
    /// A new core of a kind.
    pub(crate) fn new(alloc: Global, kind: Kind) -> Result<Self, AllocError> {
        Ok(match kind {
            Kind::Lockstep => AnyCore::Lockstep,
            Kind::Scalar => AnyCore::Scalar(Scalar::new(alloc)?),
            Kind::Noise => AnyCore::Noise(Noise::new(1)),
            Kind::Echo => AnyCore::Echo,
            Kind::Flood => AnyCore::Flood,
            Kind::Pair => AnyCore::Pair,
        })
    }
}

impl Core for AnyCore {
    ghost use Rattle.std.specs.Prelude.{⊤};

    ghost gives = { λ before told state list after. ⊤ };

    fn cycle(&mut self, told: &Told, view: &View<'_>, out: &mut Claims) {
        match self {
            AnyCore::Lockstep => Lockstep.cycle(told, view, out),
            AnyCore::Scalar(core) => core.cycle(told, view, out),
            AnyCore::Noise(core) => core.cycle(told, view, out),
            AnyCore::Echo => Echo.cycle(told, view, out),
            AnyCore::Flood => Flood.cycle(told, view, out),
            AnyCore::Pair => hand_over_pair(told.cycle, out),
        }
    }
}

/// What `Pair` hands over in a cycle.
fn hand_over_pair(cycle: u64, out: &mut Claims)
    requires { out.old ≡ [] }
{
    match cycle {
        1 => {
            out.push(ADDS);
            out.push(ASKS);
        }
        2 => out.push(HALTS),
        _ => {}
    }
}
