// The command `duo`: two harts over one memory, each under a new core of the kind that is asked for.
ghost use Rattle.std.specs.Prelude.{◌≡◌, ◌≤◌, ◌<◌, ◌+◌, ◌^◌, IfErr, IfOk, OnOk};
ghost use Rattle.diva_image.specs.ImageLayout.{layout};
ghost use Rattle.diva_duo.specs.Which.{machine_at, which};
ghost use Rattle.diva_trace.specs.Text.{hart_text};
ghost use Rattle.diva_args.specs.declared.job.Job.TheVariants.{Duo as Command};
ghost use Rattle.diva_process.specs.Programs.{FileBytes};
ghost use Rattle.diva_outside.specs.Files.{IsUncounted};
ghost use Rattle.diva_outside.specs.Sink.{PutsTo};
ghost use Rattle.diva_cli.specs.Changes.{asking};
ghost use Rattle.diva_outside.specs.Lent.{lent};
ghost use Rattle.diva_cli.specs.DuoTexts.{IsDuoRun, duo_start, duo_status, duo_text};
ghost use Rattle.diva_cli.specs.Runs.{shown_dump};
ghost use Rattle.diva_cli.specs.Wanted.{wanted, file_rules};
ghost use Rattle.diva_cli.specs.Parts.{DoesJob, HoldsDuo, IsDuoReady, WritesJob, new_cores, no_lanes};
ghost use Rattle.diva_process.specs.Writing.{Stops};

use crate::files::{ImageFile, load};
use crate::writing::shown_dump;
use diva_args::{DumpRange, DuoOptions, HartCore};
use diva_core::Core;
use diva_duo::{Duo, drive2};
use diva_isa::End;
use diva_outside::{Files, Sink, SinkFailed, put_line};
use diva_process::{Failure, Status, Stop, write_stop};
use diva_tape::{Lockstep, Scalar, Silent};
use diva_trace::{HartReport, cycles_line, write_dump, write_hart};
use std::alloc::{AllocError, Global};

/// Runs an image on two harts, and then writes what they came to. All memory is taken before their cores are asked and before
/// anything is written; the core that is handed in can't be asked.
#[inline(never)]
pub(crate) fn duo<F: Files, S: Sink, C: Core>(
    alloc: Global,
    options: DuoOptions,
    files: &mut F,
    sink: &mut S,
    _core: &C,
) -> Result<Status, Failure>
    ensures { DoesJob C.gives (Command options) (asking _core.now _core.now no_lanes)
        (lent F.account files.old files.new) (lent S.account sink.old sink.new) result }
{
    match make_duo(alloc, files, &options) {
        Ok(mut ready) => duo_ready(&mut ready, &options, sink, _core),
        Err(stop) => write_stop(stop, sink),
    }
}

/// The cores of both harts, with all memory that they ever need.
#[derive(Drop)]
enum HartCores {
    Scalar(Scalar, Scalar),
    Lockstep,
    Silent,
}

/// What the command needs, with all memory that is ever taken.
#[derive(Drop)]
struct DuoReady {
    /// Two harts that begin with the image.
    duo: Duo,
    cores: HartCores,
}

/// Two harts that begin with the image, and their cores.
fn make_duo<F: Files>(alloc: Global, files: &mut F, options: &DuoOptions) -> Result<DuoReady, Stop>
    ensures uncounted { OnOk result (IsUncounted (lent F.account files.old files.new)) }
    ensures ready { IfOk result (HoldsDuo (F.account files.old).contents options.now) }
    ensures new { IfOk result (λ ready. ready.duo.duo.cycles ≡ 0) }
    ensures stopped { IfErr result (λ stop. Stops file_rules (F.account files.old) (F.account files.new) (wanted (Command options.now)) stop) }
{
    let kind = ImageFile { room: options.room };
    let image = load(alloc, files, &kind, &options.image)?;
    let config = options.config;
    let duo = Duo::new(alloc, &image, config)?;
    let cores = make_cores(alloc, options.core)?;
    Ok(DuoReady { duo, cores })
}

/// New cores of a kind.
fn make_cores(alloc: Global, kind: HartCore) -> Result<HartCores, AllocError>
    ensures { IfOk result (λ cores. cores ≡ new_cores kind) }
{
    Ok(match kind {
        HartCore::Scalar => HartCores::Scalar(Scalar::new(alloc)?, Scalar::new(alloc)?),
        HartCore::Lockstep => HartCores::Lockstep,
        HartCore::Silent => HartCores::Silent,
    })
}

/// Drives both harts to their ends, or for all cycles, and then writes what they came to.
fn duo_ready<S: Sink, C: Core>(
    ready: &mut DuoReady,
    options: &DuoOptions,
    sink: &mut S,
    _core: &C,
) -> Result<Status, Failure>
    requires { ready.old.duo.duo.cycles ≡ 0 }
    ensures { (bytes : FileBytes) → IsDuoReady options.now bytes ready.old
        → WritesJob C.gives (Command options.now) (asking _core.now _core.now no_lanes) bytes (lent S.account sink.old sink.new) result }
{
    let cycles = u64::from(options.cycles.get());
    drive_both(&mut ready.duo, &mut ready.cores, cycles);
    write_duo(&ready.duo, options.dump, sink)?;
    Ok(duo_status(&ready.duo))
}

/// Drives both harts, each under its new core, for so many cycles at most.
fn drive_both(duo: &mut Duo, cores: &mut HartCores, cycles: u64)
    requires { duo.old.duo.cycles + cycles ≤ 2 ^ 60 }
    ensures { (kind : HartCore) → cores.old ≡ new_cores kind → duo.old.duo.cycles ≡ 0
        → IsDuoRun kind cycles duo.old.duo duo.new.duo }
{
    match cores {
        HartCores::Scalar(first, second) => drive2(duo, first, second, cycles),
        HartCores::Lockstep => drive2(duo, &mut Lockstep, &mut Lockstep, cycles),
        HartCores::Silent => drive2(duo, &mut Silent, &mut Silent, cycles),
    };
}

/// Writes what two harts came to, line by line.
fn write_duo<S: Sink>(duo: &Duo, dump: Option<DumpRange>, sink: &mut S) -> Result<(), SinkFailed>
    ensures { PutsTo (lent S.account sink.old sink.new) (duo_text duo.now.duo (shown_dump dump)) result }
{
    put_line(&cycles_line(duo.cycles()), sink)?;
    write_hart_of(duo, 0, sink)?;
    write_hart_of(duo, 1, sink)?;
    match shown_dump(dump) {
        Some(dump) => write_dump(duo, dump, sink),
        None => Ok(()),
    }
}

/// Writes the lines of a hart, 0 or 1.
fn write_hart_of<S: Sink>(duo: &Duo, h: u8, sink: &mut S) -> Result<(), SinkFailed>
    requires { h < 2 }
    ensures { PutsTo (lent S.account sink.old sink.new) (hart_text h (machine_at (which h) duo.now.duo)) result }
{
    let report = HartReport {
        end: duo.end(h),
        count: duo.count(h),
        flushes: duo.flushes(h),
        silent: duo.silent(h),
        output: duo.output(h),
        view: &duo.view(h),
    };
    write_hart(h, &report, sink)
}

/// How both harts ended: both halted, or one trapped; or that they go on.
fn duo_status(duo: &Duo) -> Status
    ensures { result ≡ duo_status duo.now.duo }
{
    if !duo.ended() {
        return Status::GoesOn;
    }
    match (duo.end(0), duo.end(1)) {
        (End::Halt(_), End::Halt(_)) => Status::Halted,
        _ => Status::Trapped,
    }
}
