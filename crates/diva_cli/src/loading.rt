// What the files of a job come to: they are loaded and read one after another.
ghost use Rattle.std.specs.Prelude.{◌≡◌, ◌≢◌, ◌≤◌, [], length, IfOk, IfErr, OnOk, Ok};
ghost use Rattle.std.specs.List.{All};
ghost use Rattle.diva_core.specs.Machine.{IsConfig};
ghost use Rattle.diva_debug.specs.Moves.{IsShort};
ghost use Rattle.diva_outside.specs.Files.{IsUncounted};
ghost use Rattle.diva_cli.specs.Replies.{keep};
ghost use Rattle.diva_cli.specs.Wanted.{file_if, file_limit, machine_files, session_files, tape_name, file_rules};
ghost use Rattle.diva_process.specs.Writing.{Stops};
ghost use Rattle.diva_cli.specs.Parts.{HoldsCore, HoldsRows, HoldsSession};
ghost use Rattle.diva_cli.specs.Ready.{HoldsLoaded, HoldsReady};
ghost use Rattle.diva_outside.specs.Lent.{lent};

use crate::driving::CoreInUse;
use crate::files::{CommandsFile, ImageFile, ScriptFile, TapeFile, load};
use diva_args::{CoreChoice, DebugOptions, FileName, Setup};
use diva_debug::{Command, Undos};
use diva_faults::Script;
use diva_image::Image;
use diva_machine::Machine;
use diva_outside::{Files, What};
use diva_process::Stop;
use diva_tape::{Noise, Scalar};
use std::alloc::Global;

/// What a command needs that drives a machine.
#[derive(Drop)]
pub struct Ready {
    /// A new machine that begins with the image.
    pub machine: Machine,
    /// The core that drives it, but for one that is handed in.
    pub core: CoreInUse,
    /// What is laid over that core.
    pub script: Script,
}

/// A machine that begins with the image of a setup, the core that it asks for, and the script, if
/// there is one. All memory that they ever need is taken.
pub fn make_ready<F: Files>(alloc: Global, files: &mut F, setup: &Setup) -> Result<Ready, Stop>
    ensures stays { (F.account files.new).contents ≡ (F.account files.old).contents }
    ensures later { (w : What) → (F.account files.old).faults w ≤ (F.account files.new).faults w }
    ensures others { (w : What) → w ≢ What.Image → w ≢ What.Script → w ≢ What.Tape
        → (F.account files.new).faults w ≡ (F.account files.old).faults w }
    ensures uncounted { OnOk result (IsUncounted (lent F.account files.old files.new)) }
    ensures ready { IfOk result (HoldsReady (F.account files.old).contents setup.now) }
    ensures config { IsConfig setup.now.config }
    ensures stopped { IfErr result (λ stop. Stops file_rules (F.account files.old) (F.account files.new) (machine_files setup.now) stop) }
{
    let config = setup.config;
    let Loaded {
        image,
        script,
        core,
    } = load_machine_files(alloc, files, setup)?;
    let machine = Machine::new(alloc, &image, config)?;
    Ok(Ready {
        machine,
        core,
        script,
    })
}

/// How many undos a session keeps at most.
const KEPT_UNDOS: usize = 4096;

/// What the command `debug` needs.
#[derive(Drop)]
pub(crate) struct SessionReady {
    /// The machine, the core and the script.
    pub ready: Ready,
    /// Room for the undos of its newest instructions.
    pub undos: Undos,
    /// The commands, in order.
    pub commands: Vec<Command>,
}

/// What a session needs: the machine, the core and the script of its setup, and then its commands.
pub(crate) fn make_session<F: Files>(
    alloc: Global,
    files: &mut F,
    options: &DebugOptions,
) -> Result<SessionReady, Stop>
    ensures stays { (F.account files.new).contents ≡ (F.account files.old).contents }
    ensures later { (w : What) → (F.account files.old).faults w ≤ (F.account files.new).faults w }
    ensures uncounted { OnOk result (IsUncounted (lent F.account files.old files.new)) }
    ensures session { IfOk result (HoldsSession (F.account files.old).contents options.now) }
    ensures config { IsConfig options.now.setup.config }
    ensures narrow { IfOk result (λ session. session.ready.machine.timed.config.width ≡ 1) }
    ensures undos { IfOk result (λ session. session.undos ≡ record { items = []; keep = keep }) }
    ensures few { IfOk result (λ session. length session.commands.items ≤ file_limit) }
    ensures short { IfOk result (λ session. All IsShort session.commands.items) }
    ensures stopped { IfErr result (λ stop. Stops file_rules (F.account files.old) (F.account files.new) (session_files options.now) stop) }
{
    let ready = make_ready(alloc, files, &options.setup)?;
    let commands = load(alloc, files, &CommandsFile, &options.commands)?;
    let undos = Undos::new(alloc, KEPT_UNDOS)?;
    Ok(SessionReady {
        ready,
        undos,
        commands,
    })
}

/// What was read of the files of a machine.
#[derive(Drop)]
pub struct Loaded {
    /// What the machine begins with.
    pub image: Image,
    /// What is laid over the core.
    pub script: Script,
    /// The core that drives it, but for one that is handed in.
    pub core: CoreInUse,
}

/// The image of a setup, then the script, if there is one, and then the tape, if that is the core.
pub fn load_machine_files<F: Files>(
    alloc: Global,
    files: &mut F,
    setup: &Setup,
) -> Result<Loaded, Stop>
    ensures stays { (F.account files.new).contents ≡ (F.account files.old).contents }
    ensures later { (w : What) → (F.account files.old).faults w ≤ (F.account files.new).faults w }
    ensures others { (w : What) → w ≢ What.Image → w ≢ What.Script → w ≢ What.Tape
        → (F.account files.new).faults w ≡ (F.account files.old).faults w }
    ensures uncounted { OnOk result (IsUncounted (lent F.account files.old files.new)) }
    ensures loaded { IfOk result (HoldsLoaded (F.account files.old).contents setup.now) }
    ensures stopped { IfErr result (λ stop. Stops file_rules (F.account files.old) (F.account files.new) (machine_files setup.now) stop) }
{
    let image = load(alloc, files, &ImageFile { room: setup.room }, &setup.image)?;
    let script = load_script_if(alloc, files, &setup.script)?;
    let core = load_core(alloc, files, &setup.core)?;
    Ok(Loaded {
        image,
        script,
        core,
    })
}

/// The script of this name, and one without rows where there is no name.
fn load_script_if<F: Files>(
    alloc: Global,
    files: &mut F,
    name: &Option<FileName>,
) -> Result<Script, Stop>
    ensures stays { (F.account files.new).contents ≡ (F.account files.old).contents }
    ensures later { (w : What) → (F.account files.old).faults w ≤ (F.account files.new).faults w }
    ensures others { (w : What) → w ≢ What.Script → (F.account files.new).faults w ≡ (F.account files.old).faults w }
    ensures uncounted { OnOk result (IsUncounted (lent F.account files.old files.new)) }
    ensures holds { IfOk result (HoldsRows (F.account files.old).contents name.now) }
    ensures stopped { IfErr result (λ stop. Stops file_rules (F.account files.old) (F.account files.new) (file_if What.Script name.now) stop) }
{
    match name {
        Some(name) => load(alloc, files, &ScriptFile, name),
        None => Ok(Script::none(alloc)),
    }
}

/// The core of a choice. The one that is handed in is there already, and a tape is loaded.
fn load_core<F: Files>(alloc: Global, files: &mut F, choice: &CoreChoice) -> Result<CoreInUse, Stop>
    ensures stays { (F.account files.new).contents ≡ (F.account files.old).contents }
    ensures later { (w : What) → (F.account files.old).faults w ≤ (F.account files.new).faults w }
    ensures others { (w : What) → w ≢ What.Tape → (F.account files.new).faults w ≡ (F.account files.old).faults w }
    ensures uncounted { OnOk result (IsUncounted (lent F.account files.old files.new)) }
    ensures holds { IfOk result (HoldsCore (F.account files.old).contents choice.now) }
    ensures stopped { IfErr result (λ stop. Stops file_rules (F.account files.old) (F.account files.new) (file_if What.Tape (tape_name choice.now)) stop) }
{
    match choice {
        CoreChoice::Own => Ok(CoreInUse::Own),
        CoreChoice::Lockstep => Ok(CoreInUse::Lockstep),
        CoreChoice::Scalar => Ok(CoreInUse::Scalar(Scalar::new(alloc)?)),
        CoreChoice::Silent => Ok(CoreInUse::Silent),
        CoreChoice::Flood => Ok(CoreInUse::Flood),
        CoreChoice::Echo => Ok(CoreInUse::Echo),
        CoreChoice::Noise => Ok(CoreInUse::Noise(Noise::new(0))),
        CoreChoice::Tape(name) => {
            let tape = load(alloc, files, &TapeFile, name)?;
            Ok(CoreInUse::Tape(tape))
        }
    }
}
