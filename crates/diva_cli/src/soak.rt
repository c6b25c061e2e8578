// The command `soak`: it makes the image of a seed and two machines that begin with it, and drives one under a new `Scalar` and one
// under the core that is handed in.
ghost use Rattle.std.specs.Prelude.{◌≡◌, IfOk};
ghost use Rattle.diva_core.specs.Timed.{default_config, new_timed};
ghost use Rattle.diva_tape.specs.Scalar.{IsScalarCall};
ghost use Rattle.diva_args.specs.declared.job.Job.TheVariants.{Soak};
ghost use Rattle.diva_process.specs.Programs.{FileBytes};
ghost use Rattle.diva_cli.specs.Changes.{asking, change};
ghost use Rattle.diva_outside.specs.Lent.{lent};
ghost use Rattle.diva_cli.specs.SoakTexts.{soak_cycles, soak_start};
ghost use Rattle.diva_cli.specs.Parts.{DoesJob, IsSoakReady, Soaks, WritesJob, no_lanes};

use crate::writing::write_soaked;
use diva_args::SoakOptions;
use diva_core::Core;
use diva_machine::{Config, DEPTH, Machine, drive};
use diva_outside::{Files, Sink};
use diva_process::{Failure, Status};
use diva_soak::soak_image;
use diva_tape::Scalar;
use std::alloc::{AllocError, Global};

/// Runs the image of a seed under two cores, and then writes what the runs came to. All memory is taken before the core that is
/// handed in is asked, and before anything is written; no file is loaded.
#[inline(never)]
pub(crate) fn soak<F: Files, S: Sink, C: Core>(
    alloc: Global,
    options: SoakOptions,
    _files: &F,
    sink: &mut S,
    core: &mut C,
) -> Result<Status, Failure>
    ensures { DoesJob C.gives (Soak options) (asking core.old core.new no_lanes)
        (lent F.account _files.now _files.now) (lent S.account sink.old sink.new) result }
{
    let mut ready = make_soak(alloc, &options)?;
    soak_ready(&mut ready, options, sink, core)
}

/// What the command needs, with all memory that is ever taken.
#[derive(Drop)]
struct SoakReady {
    /// A new machine that begins with the image of the seed, and one more.
    first: Machine,
    second: Machine,
    /// The core of the first one.
    scalar: Scalar,
}

/// Two new machines that begin with the image of a seed, and the core of the first one.
fn make_soak(alloc: Global, options: &SoakOptions) -> Result<SoakReady, AllocError>
    ensures { IfOk result (IsSoakReady options.now) }
{
    let scalar = Scalar::new(alloc)?;
    let image = soak_image(alloc, options.seed, options.instructions.get())?;
    let first = Machine::new(alloc, &image, Config::default())?;
    let second = Machine::new(alloc, &image, Config::default())?;
    Ok(SoakReady {
        first,
        second,
        scalar,
    })
}

/// Drives both machines to their ends, and then writes what they came to.
fn soak_ready<S: Sink, C: Core>(
    ready: &mut SoakReady,
    options: SoakOptions,
    sink: &mut S,
    core: &mut C,
) -> Result<Status, Failure>
    requires { IsSoakReady options ready.old }
    ensures { (bytes : FileBytes) → WritesJob C.gives (Soak options) (asking core.old core.new no_lanes) bytes (lent S.account sink.old sink.new) result }
{
    drive_both(ready, &options, core);
    write_soaked(&ready.first, &ready.second, sink)?;
    Ok(Status::Halted)
}

/// Drives both machines to their ends: the first under its `Scalar`, and then the second under the core that is handed in.
fn drive_both<C: Core>(ready: &mut SoakReady, options: &SoakOptions, core: &mut C)
    requires { IsSoakReady options.now ready.old }
    ensures under_scalar { Soaks IsScalarCall options.now (change ready.old.scalar ready.new.scalar) ready.new.first.timed }
    ensures under_own { Soaks C.gives options.now (change core.old core.new) ready.new.second.timed }
{
    drive_new(&mut ready.first, &mut ready.scalar, options);
    drive_new(&mut ready.second, core, options);
}

/// Drives a new machine to its end.
fn drive_new<D: Core>(machine: &mut Machine, core: &mut D, options: &SoakOptions)
    requires { machine.old.timed ≡ new_timed default_config (soak_start options.now) }
    ensures { Soaks D.gives options.now (change core.old core.new) machine.new.timed }
{
    drive(machine, core, soak_cycles(options.instructions.get()));
}

/// The cycles in which a machine ends for sure whose image has so many drawn instructions: W + 6 for each that may commit, W being
/// the watchdog's limit.
fn soak_cycles(instructions: u32) -> u64
    ensures { result ≡ soak_cycles instructions }
{
    (u64::from(Config::default().limit()) + DEPTH) * (u64::from(instructions) + 3)
}
