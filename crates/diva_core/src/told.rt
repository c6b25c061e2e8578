// What a core is told before a cycle.
use std::marker::Model;

/// What a core is told before a cycle.
#[derive(Clone, Copy, Debug)]
pub struct Told {
    /// The number of the coming cycle, from 1.
    pub cycle: u64,
    /// The instructions committed so far.
    pub count: u64,
    /// The committed pc.
    pub pc: u32,
    /// The flushes and undos so far.
    pub epoch: u64,
    /// The claims that are pending.
    pub pending: u32,
    /// How many claims the coming cycle accepts at most: 4 at most, and with those pending 64 at most.
    pub room: u32,
    /// The cycles run since the last commit, or since an instruction was taken back.
    pub idle: u32,
    /// Whether a claim has to be handed over in this call, or the watchdog may bark before it can commit.
    pub due: bool,
    /// Whether the machine has ended.
    pub ended: bool,
}

impl Model for Told {
    ghost use Rattle.diva_core.specs.Told.{Told, IsRoom};

    ghost Value = { Told };

    ghost view = { λ t. record { cycle = t.cycle; count = t.count; pc = t.pc; epoch = t.epoch; pending = t.pending; room = t.room; idle = t.idle; due = t.due; ended = t.ended } };

    ghost invariant = { λ t. IsRoom t.pending t.room };

    ghost inverse = { λ n. record { cycle = n.cycle; count = n.count; pc = n.pc; epoch = n.epoch; pending = n.pending; room = n.room; idle = n.idle; due = n.due; ended = n.ended } };
}
