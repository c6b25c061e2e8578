// What is done with a core, and a machine or a session, under a script or without one.
ghost use Rattle.diva_faults.specs.Spoiled.{spoiled};
ghost use Rattle.diva_cli.specs.Changes.{change};
ghost use Rattle.diva_outside.specs.Lent.{lent};
ghost use Rattle.diva_cli.specs.Lanes.{AreHonest, are_asked};
ghost use Rattle.diva_cli.specs.Tasks.{Plays};

use crate::checking::drive_checked;
use crate::driving::perform_by;
use crate::lanes::Lanes;
use crate::loading::Ready;
use crate::replying::reply_each;
use crate::scripted::drive_scripted;
use crate::watching::{Watcher, watch_checked};
use diva_args::LanePlace;
use diva_core::Core;
use diva_debug::{Command, Rewindable};
use diva_faults::{Faulty, Script};
use diva_machine::Machine;
use diva_outside::{Sink, SinkFailed};
use diva_vote::Lane;

/// Something that is done with a machine and any core.
pub(crate) trait Task {
    ghost use Rattle.std.specs.Prelude.{List, Result};
    ghost use Rattle.diva_outside.specs.declared.sink.SinkFailed.{SinkFailed};
    ghost use Rattle.diva_core.specs.Legs.{Part};
    ghost use Rattle.diva_core.specs.Timed.{Timed};
    ghost use Rattle.diva_faults.specs.Spoiled.{spoiled};
    ghost use Rattle.diva_outside.specs.Lent.{lent};
    ghost use Rattle.diva_outside.specs.Sink.{LentSink};
    ghost use Rattle.diva_cli.specs.Changes.{Change, LanesAsked, change};
    ghost use Rattle.diva_cli.specs.Lanes.{AreHonest, are_asked};
    ghost use Rattle.diva_cli.specs.Tasks.{Plays};

    /// What it is done on: a machine, or one that can go back.
    type On;

    /// The machine of that.
    ghost timed: { Self.On → Timed };

    /// It can be done on this.
    ghost allows: { Self → Self.On → Type 0 };

    /// Relates the task before and after, what became of the machine, what is said of the lanes, what became of the sink, the
    /// result, and the parts in which the machine was driven.
    ghost does: { {S : Type 0} → Self → Self → Change Timed → LanesAsked → LentSink S → Result (Unit {0}) SinkFailed
        → List Part → Type 0 };

    /// Does it with a core.
    fn alone<D: Core, S: Sink, L: Lane>(
        &mut self,
        on: &mut Self::On,
        core: &mut D,
        lanes: &mut Lanes<L>,
        sink: &mut S,
    ) -> Result<(), SinkFailed>
        requires allows { allows self.old on.old }
        requires honest { AreHonest L.honest lanes.old }
        ensures { Plays D.gives (change (timed on.old) (timed on.new)) (change core.old core.new)
            (does self.old self.new (change (timed on.old) (timed on.new)) (are_asked L.says lanes.old lanes.new)
            (lent S.account sink.old sink.new) result) };

    /// Does it with a core under a script that has rows.
    fn scripted<D: Core, S: Sink, L: Lane>(
        &mut self,
        script: &Script,
        on: &mut Self::On,
        core: &mut D,
        lanes: &mut Lanes<L>,
        sink: &mut S,
    ) -> Result<(), SinkFailed>
        requires allows { allows self.old on.old }
        requires honest { AreHonest L.honest lanes.old }
        ensures { Plays (spoiled script.now D.gives) (change (timed on.old) (timed on.new)) (change core.old core.new)
            (does self.old self.new (change (timed on.old) (timed on.new)) (are_asked L.says lanes.old lanes.new)
            (lent S.account sink.old sink.new) result) }
    {
        let mut faulty = Faulty::new(core, script);
        self.alone(on, &mut faulty, lanes, sink)
    }
}

/// A machine is driven for so many cycles at most, and nothing watches its turns. Where a place is given, three lanes vote, and the
/// one in that place is the liar.
#[derive(Clone, Copy, Debug)]
pub(crate) struct Quiet {
    pub cycles: u64,
    pub liar: Option<LanePlace>,
}

impl Task for Quiet {
    ghost use Rattle.std.specs.Prelude.{◌+◌, ◌≤◌, ◌^◌};
    ghost use Rattle.diva_machine.specs.Asked.{asked_over};
    ghost use Rattle.diva_cli.specs.Tasks.{IsQuiet};
    ghost use Rattle.diva_cli.specs.Ready.{IsOnePart};

    type On = Machine;

    ghost timed = { λ m. m.timed };

    ghost allows = { λ task m. m.timed.cycles + task.cycles ≤ 2 ^ 60 };

    ghost does = { λ before after machine lanes sink result. IsOnePart (λ lists.
        IsQuiet before.cycles machine lists sink result × lanes before.liar (asked_over machine.before lists)) };

    #[inline(always)]
    fn alone<D: Core, S: Sink, L: Lane>(
        &mut self,
        on: &mut Machine,
        core: &mut D,
        lanes: &mut Lanes<L>,
        _sink: &mut S,
    ) -> Result<(), SinkFailed> {
        drive_checked(on, core, self.cycles, self.liar, lanes);
        Ok(())
    }

    fn scripted<D: Core, S: Sink, L: Lane>(
        &mut self,
        script: &Script,
        on: &mut Machine,
        core: &mut D,
        lanes: &mut Lanes<L>,
        _sink: &mut S,
    ) -> Result<(), SinkFailed> {
        drive_scripted(on, core, script, self.cycles, self.liar, lanes);
        Ok(())
    }
}

/// A machine is driven for so many cycles at most, and a watcher sees each turn, until the sink fails.
#[derive(Drop)]
pub struct Watched<W> {
    pub cycles: u64,
    /// Where a place is given, three lanes vote, and the one in that place is the liar.
    pub liar: Option<LanePlace>,
    pub watcher: W,
}

impl<W: Watcher> Watched<W> {
    ghost use Rattle.std.specs.Prelude.{ℕ, ◌+◌, ◌≤◌, ◌^◌};
    ghost use Rattle.diva_machine.specs.Asked.{asked_over};
    ghost use Rattle.diva_cli.specs.Ready.{IsOnePart, PlaysBy};
    ghost use Rattle.diva_cli.specs.Watched.{IsWatched};

    /// Drives a machine with the core in use, under a script, until the machine ends, the cycles are run or the sink fails; `core` is
    /// the one handed in, and `lanes` are those that may vote.
    pub fn drive<C: Core, S: Sink, L: Lane>(
        &mut self,
        ready: &mut Ready,
        core: &mut C,
        lanes: &mut Lanes<L>,
        sink: &mut S,
    ) -> Result<(), SinkFailed>
        requires cycles { ready.old.machine.timed.cycles + self.old.cycles ≤ 2 ^ 60 }
        requires can { (n : ℕ) → n ≤ self.old.cycles → W.can self.old.watcher n }
        requires honest { AreHonest L.honest lanes.old }
        ensures { PlaysBy C.gives ready.old.core ready.old.script (change ready.old.machine.timed ready.new.machine.timed)
            (change core.old core.new) (IsOnePart (λ lists. IsWatched W.puts W.says self.old.cycles
            (change ready.old.machine.timed ready.new.machine.timed) (change self.old.watcher self.new.watcher) lists
            (lent S.account sink.old sink.new) result × are_asked L.says lanes.old lanes.new self.old.liar
            (asked_over ready.old.machine.timed lists))) }
    {
        let Ready {
            machine,
            core: used,
            script,
        } = ready;
        perform_by(self, machine, used, script, core, lanes, sink)
    }
}

impl<W: Watcher> Task for Watched<W> {
    ghost use Rattle.std.specs.Prelude.{ℕ, ◌+◌, ◌≤◌, ◌^◌};
    ghost use Rattle.diva_machine.specs.Asked.{asked_over};
    ghost use Rattle.diva_cli.specs.Changes.{change};
    ghost use Rattle.diva_cli.specs.Ready.{IsOnePart};
    ghost use Rattle.diva_cli.specs.Watched.{IsWatched};

    type On = Machine;

    ghost timed = { λ m. m.timed };

    ghost allows = { λ task m. (m.timed.cycles + task.cycles ≤ 2 ^ 60) × ((n : ℕ) → n ≤ task.cycles → W.can task.watcher n) };

    ghost does = { λ before after machine lanes sink result. IsOnePart (λ lists.
        IsWatched W.puts W.says before.cycles machine (change before.watcher after.watcher) lists sink result
        × lanes before.liar (asked_over machine.before lists)) };

    fn alone<D: Core, S: Sink, L: Lane>(
        &mut self,
        on: &mut Machine,
        core: &mut D,
        lanes: &mut Lanes<L>,
        sink: &mut S,
    ) -> Result<(), SinkFailed> {
        watch_checked(
            on,
            core,
            self.cycles,
            self.liar,
            lanes,
            &mut self.watcher,
            sink,
        )
    }
}

/// The commands of a session are done, and the reply to each is written, until the sink fails.
#[derive(Clone, Copy)]
pub(crate) struct Replies<'a> {
    pub commands: &'a [Command],
}

impl Task for Replies<'_> {
    ghost use Rattle.std.specs.Prelude.{[], None};
    ghost use Rattle.diva_cli.specs.Tasks.{CanReply, IsReplied};

    type On = Rewindable;

    ghost timed = { λ r. r.machine.timed };

    ghost allows = { λ task r. CanReply task.commands.now r };

    ghost does = { λ before after machine lanes sink result parts. IsReplied before.commands.now machine.before parts sink result
        × lanes None [] };

    fn alone<D: Core, S: Sink, L: Lane>(
        &mut self,
        on: &mut Rewindable,
        core: &mut D,
        _lanes: &mut Lanes<L>,
        sink: &mut S,
    ) -> Result<(), SinkFailed> {
        reply_each(on, core, self.commands, sink)
    }
}
