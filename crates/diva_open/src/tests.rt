// Tests of open machines. What is due was worked out by hand: a claim that is accepted in a cycle leaves six cycles later.
ghost use Rattle.std.specs.Prelude.{◌≡◌, IfOk};

use crate::{OpenEnd, OpenMachine, drive_open};
use diva_core::{Claim, Claims, Config, Core, Told, View};
use diva_hart::Drive;
use diva_image::Image;
use std::alloc::Global;
use std::test::Fail;

/// `addi x1, x0, 5`.
const FIVE: Claim = Claim {
    pc: 0,
    word: 0x0050_0093,
    src1: 0,
    src2: 0,
    addr: 0,
    value: 5,
    next: 4,
    end: 0,
};

/// `addi x17, x0, 93`, the number of the service that halts.
const SERVICE: Claim = Claim {
    pc: 4,
    word: 0x05d0_0893,
    value: 93,
    next: 8,
    ..FIVE
};

/// `ecall`, which halts with status 0.
const HALT: Claim = Claim {
    pc: 8,
    word: 0x0000_0073,
    src1: 93,
    value: 0,
    next: 8,
    end: 256,
    ..FIVE
};

/// `sw x0, 0(x0)` at the entry.
const STORE: Claim = Claim {
    word: 0x0000_2023,
    value: 0,
    ..FIVE
};

/// Claims that are not due: another value of `FIVE`, also with another next pc, another service, stores beyond the last byte and partly so, a word that is no
/// instruction, a number that no end has, and a trap.
const FLIPPED: Claim = Claim { value: 7, ..FIVE };

const ELSEWHERE: Claim = Claim {
    value: 7,
    next: 12,
    ..FIVE
};

const OTHER_SERVICE: Claim = Claim {
    value: 92,
    ..SERVICE
};

const OUTSIDE: Claim = Claim { addr: 64, ..STORE };

const AT_THE_EDGE: Claim = Claim { addr: 61, ..STORE };

const NO_INSTRUCTION: Claim = Claim { word: 0, ..FIVE };

const NO_END: Claim = Claim { end: 11, ..FIVE };

const TRAP: Claim = Claim { end: 10, ..FIVE };

/// The lists of the first cycles.
type Lists = &'static [&'static [Claim]];

/// A run of lists, and what it shows: its end, the instructions counted, the cycles, and the place.
type Run = (Lists, OpenEnd, u64, u64, Option<u64>);

static RUNS: [Run; 9] = [
    (&[&[FIVE, SERVICE], &[HALT]], OpenEnd::Halt(0), 3, 8, None),
    (
        &[&[FLIPPED, SERVICE], &[HALT]],
        OpenEnd::Halt(0),
        3,
        8,
        Some(0),
    ),
    (
        &[&[FIVE, OTHER_SERVICE], &[HALT]],
        OpenEnd::Halt(0),
        3,
        8,
        Some(1),
    ),
    (
        &[&[FIVE], &[OUTSIDE, SERVICE]],
        OpenEnd::Stray,
        1,
        8,
        Some(1),
    ),
    (&[&[AT_THE_EDGE]], OpenEnd::Stray, 0, 7, Some(0)),
    (&[&[NO_INSTRUCTION]], OpenEnd::Stray, 0, 7, Some(0)),
    (&[&[NO_END]], OpenEnd::Stray, 0, 7, Some(0)),
    (&[&[TRAP]], OpenEnd::Trap(9), 1, 7, Some(0)),
    (&[], OpenEnd::GoesOn, 0, 40, None),
];

/// Hands over one of these lists in each cycle, and none behind them.
#[derive(Clone, Copy, Debug)]
struct Handed {
    lists: Lists,
}

impl Core for Handed {
    ghost use Rattle.std.specs.Prelude.{⊤};

    ghost gives = { λ before told state list after. ⊤ };

    fn cycle(&mut self, told: &Told, view: &View<'_>, out: &mut Claims) {
        let _ = view;
        let place = told.cycle.saturating_sub(1) as usize;
        for claim in self.lists.get(place).copied().unwrap_or_default() {
            if out.len() < Claims::MOST {
                out.push(*claim);
            }
        }
    }
}

/// An open machine of 64 bytes at 0, which has these words from its entry on.
fn machine(alloc: Global, words: &[u32], config: Config) -> Result<OpenMachine, Fail>
    ensures { IfOk result (λ m. m.timed.cycles ≡ 0) }
{
    let mut payload = Vec::new(alloc);
    for word in words {
        payload.extend_from_slice(&word.to_le_bytes())?;
    }
    match Image::new(0, 64, 0, payload) {
        Some(image) => Ok(OpenMachine::new(alloc, &image, config)?),
        None => Err(Fail::new("no image")),
    }
}

/// The words of `FIVE`, `SERVICE` and `HALT`.
static HALTING: [u32; 3] = [0x0050_0093, 0x05d0_0893, 0x0000_0073];

/// The runs show what is due.
#[test]
fn runs_of_lists(rt: HostRuntime) -> Result<(), Fail> {
    for (at, (lists, end, count, cycles, place)) in RUNS.iter().enumerate() {
        let mut m = machine(rt.alloc(), &HALTING, Config::default())?;
        let ended = drive_open(&mut m, &mut Handed { lists: *lists }, 40) == Drive::Ended;
        assert_eq!(rt;
            (ended, m.goes_on()),
            (*end != OpenEnd::GoesOn, !ended),
            "run {at}"
        );
        assert_eq!(rt; m.ended(), *end, "run {at}");
        assert_eq!(rt; m.count(), *count, "run {at}");
        assert_eq!(rt; m.cycles(), *cycles, "run {at}");
        assert_eq!(rt; m.place(), *place, "run {at}");
    }
    Ok(())
}

/// A claim commits as it stands: its value goes to its register, and its next pc to the pc.
#[test]
fn a_claim_commits_as_it_stands(rt: HostRuntime) -> Result<(), Fail> {
    let mut m = machine(rt.alloc(), &HALTING, Config::default())?;
    let mut core = Handed {
        lists: &[&[ELSEWHERE]],
    };
    assert_eq!(rt; drive_open(&mut m, &mut core, 7), Drive::Budget);
    assert_eq!(rt; m.view().reg(1), 7);
    assert_eq!(rt; m.view().pc(), 12);
    assert_eq!(rt; m.output().len(), 0);
    let told = m.told();
    assert_eq!(rt;
        (told.cycle, told.count, told.epoch, told.room, told.idle),
        (8, 1, 0, 2, 0)
    );
    Ok(())
}

/// Where no store more may be owed, a store waits until the port opens. The watchdog sleeps.
#[test]
fn a_store_waits(rt: HostRuntime) -> Result<(), Fail> {
    let config = Config::new(1, 8, 1, 16).and_then(|config| config.with_port(6));
    let Some(config) = config else {
        return Err(Fail::new("no config"));
    };
    let mut m = machine(rt.alloc(), &[], config)?;
    let mut core = Handed {
        lists: &[&[STORE], &[STORE], &[STORE]],
    };
    for (cycles, count) in [(6, 0), (1, 1), (4, 1), (1, 2), (5, 2), (1, 3), (30, 3)] {
        assert!(rt; m.cycles() < 60);
        assert_eq!(rt; drive_open(&mut m, &mut core, cycles), Drive::Budget);
        assert_eq!(rt; m.count(), count, "cycle {}", m.cycles());
    }
    assert_eq!(rt; (m.told().idle, m.told().epoch), (16, 0));
    Ok(())
}
