// Images of seeds, each run under two cores.
use super::{Outside, compare_by};
use crate::cores::flipped;
use diva_core::CopyCore;
use diva_ooo::Ooo;
use diva_test_programs::registers_text;
use std::alloc::Global;
use std::process::Abort;
use std::test::Fail;

/// The seed 1 draws sub x8, x2, x1, which stands at 800, before addi x0, x0, 0, addi x17, x0, 93 and ecall; memory ends behind them.
/// All registers are 0 before, and x10 is the status.
///
/// `Scalar` claims one in each of the cycles 1 to 4, and they commit in 7 to 10. The out-of-order core fetches the first two in cycle
/// 1 and the others in cycle 2. The first two begin in cycle 2 and are claimed in cycle 3, in which the third begins, but not the
/// ecall, which is not the oldest. In cycle 4 the third is claimed, and the ecall begins; it is claimed in cycle 5, and the word that
/// was fetched outside memory is dropped. So two commit in cycle 9, the third in cycle 10, and the ecall in cycle 11.
const LINES: &str = "\
scalar count 4 cycles 10 flushes 0
own count 4 cycles 11 flushes 0
";

/// The same where the first claim of the program's own core is wrong: it is refused in cycle 7, the checker's own
/// instruction commits in 13, and the others are claimed one by one in the cycles 14, 21 and 28.
pub(super) const FLIPPED_LINES: &str = "\
scalar count 4 cycles 10 flushes 0
own count 4 cycles 34 flushes 1
";

/// The whole text: the lines of both runs, and what both leave.
pub(super) fn soaked_text(alloc: Global, lines: &str) -> Result<String, Fail> {
    let registers = registers_text(alloc, &[(17, 0x5d)])?;
    Ok(format!(in alloc; "{lines}end halt 0\noutput 0\n{registers}pc 0000080c\n")?)
}

/// No file is there, and a load would fail.
fn without_files(alloc: Global) -> Result<Outside, Fail> {
    let mut outside = Outside::sound(alloc, Vec::new(alloc));
    outside.load_fails.push(1)?;
    Ok(outside)
}

#[test]
fn seeds_that_soak(rt: HostRuntime) -> Result<(), Fail> {
    let alloc = rt.alloc();
    compare_soak(&rt, alloc, &mut Ooo::new(alloc)?, LINES)?;
    compare_soak(&rt, alloc, &mut flipped(), FLIPPED_LINES)
}

/// Compares what is written with this core as the program's own: the lines of both runs, and what is left.
fn compare_soak<C: CopyCore + Drop>(
    rt: &impl Abort,
    alloc: Global,
    core: &mut C,
    lines: &str,
) -> Result<(), Fail> {
    let text = soaked_text(alloc, lines)?;
    let outside = without_files(alloc)?;
    compare_by(rt, core, "soak 1 1", outside, 0, text.as_str())
}
