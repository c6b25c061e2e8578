// The command `campaign`: it runs an image under `lockstep` as it is, and then once for each bit of each field of the first claim of
// each cycle up to one, with that bit flipped; and counts what became of these runs.
ghost use Rattle.std.specs.Prelude.{◌≡◌, ◌≤◌, ◌<◌, ◌^◌, ◌++◌, ◌∷◌, [], List, IfErr, IfOk, OnOk};
ghost use Rattle.diva_core.specs.Timed.{Timed};
ghost use Rattle.diva_hart.specs.Start.{start_of};
ghost use Rattle.diva_image.specs.ImageLayout.{layout};
ghost use Rattle.diva_trace.specs.Text.{campaign_text};
ghost use Rattle.diva_args.specs.declared.campaign.CampaignOptions.{CampaignOptions as Options};
ghost use Rattle.diva_args.specs.declared.job.Job.TheVariants.{Campaign as Command};
ghost use Rattle.diva_process.specs.Programs.{FileBytes};
ghost use Rattle.diva_cli.specs.CampaignTexts.{campaign_tally, first_run, flipped_runs, is_same, run_under, tally_of};
ghost use Rattle.diva_outside.specs.Files.{IsUncounted};
ghost use Rattle.diva_outside.specs.Sink.{PutsTo};
ghost use Rattle.diva_cli.specs.Changes.{asking};
ghost use Rattle.diva_outside.specs.Lent.{lent};
ghost use Rattle.diva_cli.specs.Lanes.{AreHonest, are_asked};
ghost use Rattle.diva_cli.specs.Wanted.{wanted, file_rules};
ghost use Rattle.diva_cli.specs.Parts.{AreCampaignRuns, DoesJob, HoldsCampaign, WritesJob, no_lanes};
ghost use Rattle.diva_process.specs.Writing.{Stops};

use crate::files::{ImageFile, load};
use crate::lanes::Lanes;
use crate::scripted::drive_scripted;
use crate::writing::end_status;
use diva_args::{CampaignCycles, CampaignOptions, LastCycle};
use diva_core::Core;
use diva_faults::{FLIPS_IN_CYCLE, Script, flip_at};
use diva_image::Image;
use diva_machine::{Config, Machine};
use diva_outside::{Files, Sink, SinkFailed, put_lines};
use diva_process::{Failure, Status, Stop, write_stop};
use diva_tape::Lockstep;
use diva_trace::{Tally, count_line, end_line_of, write_output, write_registers, write_tally};
use diva_vote::Lane;
use std::alloc::{AllocError, Global};

/// Runs an image with each flip, and then writes what the runs came to. Nothing is written before the last one; the core that is
/// handed in can't be asked, and no lane is.
#[inline(never)]
pub(crate) fn campaign<F: Files, S: Sink, C: Core, L: Lane>(
    alloc: Global,
    options: CampaignOptions,
    files: &mut F,
    sink: &mut S,
    _core: &C,
    lanes: &mut Lanes<L>,
) -> Result<Status, Failure>
    requires { AreHonest L.honest lanes.old }
    ensures { DoesJob C.gives (Command options) (asking _core.now _core.now (are_asked L.says lanes.old lanes.new))
        (lent F.account files.old files.new) (lent S.account sink.old sink.new) result }
{
    match load_and_run(alloc, files, &options, lanes) {
        Ok(runs) => show(&runs, sink, _core),
        Err(stop) => write_stop(stop, sink),
    }
}

/// What the runs of a campaign came to.
#[derive(Drop)]
struct CampaignRuns {
    /// The machine of the first run, as it was left.
    first: Machine,
    /// What is counted of the others.
    tally: Tally,
}

/// The runs of the image that the options name. All memory that is ever taken is taken here.
fn load_and_run<F: Files, L: Lane>(
    alloc: Global,
    files: &mut F,
    options: &CampaignOptions,
    lanes: &mut Lanes<L>,
) -> Result<CampaignRuns, Stop>
    requires { AreHonest L.honest lanes.old }
    ensures lanes { lanes.new ≡ lanes.old }
    ensures uncounted { OnOk result (IsUncounted (lent F.account files.old files.new)) }
    ensures runs { IfOk result (HoldsCampaign (F.account files.old).contents options.now) }
    ensures stopped { IfErr result (λ stop. Stops file_rules (F.account files.old) (F.account files.new) (wanted (Command options.now)) stop) }
{
    let image = load(alloc, files, &ImageFile { room: 0 }, &options.image)?;
    let runs = run_all(alloc, &image, options.last, options.cycles, lanes)?;
    Ok(runs)
}

/// The run without a script, and those with a flip each.
fn run_all<L: Lane>(
    alloc: Global,
    image: &Image,
    last: LastCycle,
    cycles: CampaignCycles,
    lanes: &mut Lanes<L>,
) -> Result<CampaignRuns, AllocError>
    requires { AreHonest L.honest lanes.old }
    ensures lanes { lanes.new ≡ lanes.old }
    ensures first { IfOk result (λ runs. runs.first.timed ≡ first_run cycles (start_of (layout image.now))) }
    ensures tally { IfOk result (λ runs. runs.tally ≡ campaign_tally last cycles (start_of (layout image.now))) }
{
    let first = run_under(alloc, image, &Script::none(alloc), cycles, lanes)?;
    let tally = run_flipped(alloc, image, &first, last, cycles, lanes)?;
    Ok(CampaignRuns { first, tally })
}

/// What is counted of the runs with a flip each. The machine of each is made anew, and dropped once it is counted.
fn run_flipped<L: Lane>(
    alloc: Global,
    image: &Image,
    first: &Machine,
    last: LastCycle,
    cycles: CampaignCycles,
    lanes: &mut Lanes<L>,
) -> Result<Tally, AllocError>
    requires { AreHonest L.honest lanes.old }
    ensures lanes { lanes.new ≡ lanes.old }
    ensures tally { IfOk result (λ tally. tally
        ≡ tally_of first.now.timed (flipped_runs last cycles (start_of (layout image.now)))) }
{
    let mut tally = Tally::default();
    for place in 0..FLIPS_IN_CYCLE * last.get() {
        let script = Script::of_row(alloc, flip_at(place))?;
        let machine = run_under(alloc, image, &script, cycles, lanes)?;
        count_run(&mut tally, first, &machine);
    }
    Ok(tally)
}

/// A new machine that begins with an image, and has run under `lockstep` with a script: for so many cycles, or to its end.
fn run_under<L: Lane>(
    alloc: Global,
    image: &Image,
    script: &Script,
    cycles: CampaignCycles,
    lanes: &mut Lanes<L>,
) -> Result<Machine, AllocError>
    requires { AreHonest L.honest lanes.old }
    ensures lanes { lanes.new ≡ lanes.old }
    ensures ran { IfOk result (λ m. m.timed ≡ run_under script.now cycles (start_of (layout image.now))) }
{
    let mut machine = Machine::new(alloc, image, Config::default())?;
    drive_scripted(
        &mut machine,
        &mut Lockstep,
        script,
        u64::from(cycles.get()),
        None,
        lanes,
    );
    Ok(machine)
}

/// Counts one run more.
#[tactic(auto, using(crate::proofs::Counting::count_more))]
fn count_run(tally: &mut Tally, first: &Machine, last: &Machine)
    requires few { tally.old.runs < 8192 }
    requires same { tally.old.same ≤ tally.old.runs }
    requires flushed { tally.old.flushed ≤ tally.old.runs }
    requires silent { tally.old.silent ≤ tally.old.runs }
    ensures { (runs : List Timed) → tally.old ≡ tally_of first.now.timed runs
        → tally.new ≡ tally_of first.now.timed (runs ++ last.now.timed ∷ []) }
{
    tally.runs += 1;
    if is_same(first, last) {
        tally.same += 1;
    }
    if last.flushes() > 0 {
        tally.flushed += 1;
    }
    if last.silent() > 0 {
        tally.silent += 1;
    }
}

/// Whether a run came to what the first one came to: how it ended, its count, its output, its registers and its pc.
fn is_same(first: &Machine, last: &Machine) -> bool
    ensures { result ≡ is_same first.now.timed last.now.timed }
{
    let due = first.view();
    let left = last.view();
    last.ended() == first.ended()
        && last.count() == first.count()
        && last.output() == first.output()
        && left.regs() == due.regs()
        && left.pc() == due.pc()
}

/// Writes what the runs came to, and answers the status of the first one.
fn show<S: Sink, C: Core>(runs: &CampaignRuns, sink: &mut S, _core: &C) -> Result<Status, Failure>
    ensures { (options : Options) (bytes : FileBytes) → AreCampaignRuns options bytes runs.now
        → WritesJob C.gives (Command options) (asking _core.now _core.now no_lanes) bytes (lent S.account sink.old sink.new) result }
{
    write_runs(runs, sink)?;
    Ok(end_status(&runs.first))
}

/// Writes what the runs came to, line by line.
fn write_runs<S: Sink>(runs: &CampaignRuns, sink: &mut S) -> Result<(), SinkFailed>
    ensures { PutsTo (lent S.account sink.old sink.new) (campaign_text runs.now.tally runs.now.first.timed) result }
{
    let first = &runs.first;
    write_tally(&runs.tally, sink)?;
    put_lines(
        &[end_line_of(first.ended()), count_line(first.count())],
        sink,
    )?;
    write_output(first.output(), sink)?;
    write_registers(&first.view(), sink)
}
