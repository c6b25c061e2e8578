// The command `inject`: it loads its files, makes the run without a fault, and then the runs under each fault, and puts a line of each as its
// runs end.
ghost use Rattle.std.specs.Prelude.{◌≡◌, ◌≤◌, IfOk};
ghost use Rattle.diva_core.specs.Machine.{IsConfig};
ghost use Rattle.diva_hart.specs.Start.{start_of};
ghost use Rattle.diva_image.specs.ImageLayout.{layout};
ghost use Rattle.diva_outside.specs.Lent.{lent};
ghost use Rattle.diva_process.specs.Programs.{asked_for};
ghost use Rattle.diva_process.specs.Promises.{KeepsPromises};
ghost use Rattle.diva_cli.specs.Changes.{asking};
ghost use Rattle.diva_lab_args.specs.declared.lab.LabJob.TheVariants.{Inject};
ghost use Rattle.diva_isa.specs.State.{State};
ghost use Rattle.diva_trial.specs.Begun.{AreReady, AreTrials};
ghost use Rattle.diva_workbench.specs.Injecting.{InjectsUnder, faults_by};
ghost use Rattle.diva_workbench.specs.Injects.{OfCore};
ghost use Rattle.diva_workbench.specs.Lab.{lab, lab_work_of, no_lanes, no_source};

use diva_cli::{CoreInUse, Loaded, load_machine_files};
use diva_core::CopyCore;
use diva_inject::Plan;
use diva_lab_args::InjectOptions;
use diva_machine::Machine;
use diva_outside::{Files, Sink};
use diva_process::{Failure, Status, write_stop};
use diva_tape::{Echo, Flood, Lockstep, Silent, TapeCore};
use diva_trial::{Faults, Trials, put_trials};
use std::alloc::{AllocError, Global};

/// Runs an image under one fault after the other. All memory is taken before anything is written, and the core that is handed in is copied.
#[inline(never)]
pub(crate) fn inject<F: Files, S: Sink, C: CopyCore + Drop>(
    alloc: Global,
    options: InjectOptions,
    files: &mut F,
    sink: &mut S,
    core: &C,
) -> Result<Status, Failure>
    ensures { KeepsPromises (asked_for lab (Inject options)) (lab_work_of C.gives (asking core.now core.now no_lanes) no_source)
        (lent F.account files.old files.new) (lent S.account sink.old sink.new) result }
{
    match load_machine_files(alloc, files, &options.setup) {
        Ok(loaded) => inject_loaded(alloc, &loaded, options, sink, core),
        Err(stop) => write_stop(stop, sink),
    }
}

/// The same, with what was loaded.
fn inject_loaded<S: Sink, C: CopyCore + Drop>(
    alloc: Global,
    loaded: &Loaded,
    options: InjectOptions,
    sink: &mut S,
    own: &C,
) -> Result<Status, Failure>
    ensures config { IsConfig options.setup.config }
    ensures injects { OfCore C.gives loaded.now.core own.now (InjectsUnder options loaded.now.script (start_of (layout loaded.now.image))
        (lent S.account sink.old sink.new) result) }
{
    match &loaded.core {
        CoreInUse::Own => inject_under(alloc, loaded, options, sink, own),
        CoreInUse::Lockstep => inject_under(alloc, loaded, options, sink, &Lockstep),
        CoreInUse::Scalar(scalar) => inject_under(alloc, loaded, options, sink, scalar),
        CoreInUse::Silent => inject_under(alloc, loaded, options, sink, &Silent),
        CoreInUse::Flood => inject_under(alloc, loaded, options, sink, &Flood),
        CoreInUse::Echo => inject_under(alloc, loaded, options, sink, &Echo),
        CoreInUse::Noise(noise) => inject_under(alloc, loaded, options, sink, noise),
        CoreInUse::Tape(tape) => {
            inject_under(alloc, loaded, options, sink, &TapeCore::new(tape))
        }
    }
}

/// The same under copies of a core.
fn inject_under<S: Sink, D: CopyCore + Drop>(
    alloc: Global,
    loaded: &Loaded,
    options: InjectOptions,
    sink: &mut S,
    core: &D,
) -> Result<Status, Failure>
    ensures config { IsConfig options.setup.config }
    ensures injects { InjectsUnder options loaded.now.script (start_of (layout loaded.now.image)) (lent S.account sink.old sink.new) result D D.gives core.now }
{
    let trials = trials_of(alloc, loaded, &options, core)?;
    put_lines(trials, options, sink)
}

/// The run without a fault, and what the others begin with.
fn trials_of<'l, D: CopyCore + Drop>(
    alloc: Global,
    loaded: &'l Loaded,
    options: &InjectOptions,
    core: &D,
) -> Result<Trials<'l, D>, AllocError>
    ensures are { IfOk result (AreTrials D.gives options.now.setup.config (start_of (layout loaded.now.image)) core.now) }
    ensures script { IfOk result (λ trials. trials.script.now ≡ loaded.now.script) }
    ensures until { IfOk result (λ trials. trials.until ≡ options.now.cycles) }
    ensures ready { IfOk result AreReady }
    ensures config { IsConfig options.now.setup.config }
    ensures cycles { options.now.cycles ≤ 1000000000 }
{
    Trials::new(
        alloc,
        &loaded.image,
        options.setup.config,
        core,
        &loaded.script,
        options.cycles.get(),
    )
}

/// Makes the runs under each fault, and puts a line of each.
fn put_lines<S: Sink, D: CopyCore + Drop>(
    mut trials: Trials<'_, D>,
    options: InjectOptions,
    sink: &mut S,
) -> Result<Status, Failure>
    requires ready { AreReady trials }
    requires most { trials.free.timed.cycles ≤ 1000000000 }
    ensures { (start : State) (core : D) → AreTrials D.gives options.setup.config start core trials.entry → trials.entry.until ≡ options.cycles
        → InjectsUnder options trials.entry.script.now start (lent S.account sink.old sink.new) result D D.gives core }
{
    let faults = faults_of(options, trials.free());
    put_trials(&mut trials, &faults, sink)?;
    Ok(Status::Halted)
}

/// The faults that are run: `free` is the machine of the run without one, at its end.
fn faults_of(options: InjectOptions, free: &Machine) -> Faults
    requires { free.now.timed.cycles ≤ 1000000000 }
    ensures { result ≡ faults_by options free.now.timed }
{
    let InjectOptions {
        setup,
        count,
        seed,
        models,
        fields,
        from,
        to,
        part,
        first,
        ..
    } = options;
    let from = from.map_or(1, |from| from.get());
    let to = to.map_or(free.cycles() as u32, |to| to.get());
    let plan = Plan::new(seed, models, fields, from, from.max(to), &setup.config);
    Faults {
        plan: plan.unwrap(),
        part,
        first,
        count: count.get(),
    }
}
