// Budgets of a drive, and the cores that it asks.
use crate::tests::harts::{DRAIN_0, DRAIN_1, GO_0, USUAL, duo_of};
use diva_core::Claims;
use diva_duo::{Action, Drive, Duo, drive2};
use diva_isa::Record;
use diva_tape::Lockstep;
use diva_test_programs::{Counting, record};
use std::process::Abort;
use std::test::Fail;

/// Hart 1 branches to the last two of `sw x17, 48(x0)`, `addi x1, x0, 1`, `addi x17, x0, 93` and `ecall`; hart 0 does all four.
///
/// With one instruction after the other hart 0 commits in cycles 7, 14, 21, 28 and 35, and hart 1 in 7, 14 and 21.
const WORDS: [u32; 5] = [0x00051663, 0x03102823, 0x00100093, 0x05d00893, 0x00000073];

/// A budget, and what is seen behind a drive that follows on those before: how it stopped, the cycles, what the last of them did,
/// and how often each core was asked. That of hart 1 is not asked behind cycle 21, in which it ends.
static DRIVES: [(u64, Drive, u64, &[Action], [u64; 2]); 6] = [
    (0, Drive::Budget, 0, &[], [0, 0]),
    (10, Drive::Budget, 10, &[], [10, 10]),
    (5, Drive::Budget, 15, &[DRAIN_0], [15, 15]),
    (19, Drive::Budget, 34, &[], [34, 21]),
    (1000, Drive::Ended, 35, &[GO_0], [35, 21]),
    (1000, Drive::Ended, 35, &[GO_0], [35, 21]),
];

/// A cycle of harts that are over does nothing, whatever is handed over.
fn compare_over(rt: &impl Abort, duo: &mut Duo) {
    let mut list = Claims::new();
    list.push(record![16, 0x00000073, 93, 0, 0, 0, 16, 256]);
    assert_eq!(rt; duo.cycles(), 35);
    duo.cycle(&list, &list);
    assert_eq!(rt;
        (
            duo.cycles(),
            duo.ended(),
            duo.last().len(),
            duo.count(0),
            duo.count(1)
        ),
        (35, true, 0, 5, 3)
    );
}

#[test]
fn drives_of_a_budget(rt: HostRuntime) -> Result<(), Fail> {
    let mut duo = duo_of(rt.alloc(), 64, &WORDS, USUAL)?;
    let [mut first, mut second] = [Counting {
        calls: 0,
        core: Lockstep,
    }; 2];
    for &(budget, stop, cycles, last, calls) in &DRIVES {
        assert!(rt; duo.cycles() < 100);
        let driven = drive2(&mut duo, &mut first, &mut second, budget);
        assert_eq!(rt;
            (
                driven,
                duo.cycles(),
                duo.last(),
                [first.calls, second.calls]
            ),
            (stop, cycles, last, calls),
            "behind a budget of {budget}"
        );
    }
    compare_over(&rt, &mut duo);
    Ok(())
}
