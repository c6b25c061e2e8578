// What a line says of an injected fault, and what became of the run.
ghost use Rattle.std.specs.Prelude.{◌≡◌, ◌≤◌, length};
ghost use Rattle.diva_rate.specs.Names.{ending_name, model_name};

use diva_core::Field;

/// What an injected fault does to the claims of a core.
#[derive(Clone, Copy, Debug, PartialEq, Eq)]
pub enum FaultModel {
    /// A bit of a claim is inverted.
    Flip,
    /// A field of a claim has another value.
    Set,
    /// A claim is left out.
    Lose,
    /// A claim comes twice.
    Double,
    /// No claims come for some cycles.
    Hush,
    /// A bit of all claims is 0 from then on.
    Stuck0,
    /// A bit of all claims is 1 from then on.
    Stuck1,
}

impl FaultModel {
    /// All models, in their order.
    pub const ALL: [FaultModel; 7] = [
        FaultModel::Flip,
        FaultModel::Set,
        FaultModel::Lose,
        FaultModel::Double,
        FaultModel::Hush,
        FaultModel::Stuck0,
        FaultModel::Stuck1,
    ];

    /// How texts call the model: in lower case, at most six bytes.
    pub fn name(self) -> &'static [u8]
        ensures name { result.now ≡ model_name self }
        ensures short { length result.now ≤ 6 }
    {
        match self {
            FaultModel::Flip => b"flip",
            FaultModel::Set => b"set",
            FaultModel::Lose => b"lose",
            FaultModel::Double => b"double",
            FaultModel::Hush => b"hush",
            FaultModel::Stuck0 => b"stuck0",
            FaultModel::Stuck1 => b"stuck1",
        }
    }
}

/// How the run came out in which the same fault met no checker.
#[derive(Clone, Copy, Debug, PartialEq, Eq)]
pub enum OpenEnding {
    /// As the run without a fault.
    Masked,
    /// It halted, and left something else.
    Silent,
    /// It trapped.
    Trap,
    /// It did not end.
    Hang,
    /// It left the program.
    Stray,
}

impl OpenEnding {
    /// All of them, in their order.
    pub const ALL: [OpenEnding; 5] = [
        OpenEnding::Masked,
        OpenEnding::Silent,
        OpenEnding::Trap,
        OpenEnding::Hang,
        OpenEnding::Stray,
    ];

    /// How texts call it: in lower case, at most six bytes.
    pub fn name(self) -> &'static [u8]
        ensures name { result.now ≡ ending_name self }
        ensures short { length result.now ≤ 6 }
    {
        match self {
            OpenEnding::Masked => b"masked",
            OpenEnding::Silent => b"silent",
            OpenEnding::Trap => b"trap",
            OpenEnding::Hang => b"hang",
            OpenEnding::Stray => b"stray",
        }
    }
}

/// What became of a run with a fault.
#[derive(Clone, Copy, Debug, PartialEq, Eq)]
pub struct Effect {
    /// Whether the fault changed what the core handed over.
    pub hit: bool,
    /// How many flushes there were.
    pub flushes: u64,
    /// Cycles from the fault to the flush that it caused; `None` if it caused none.
    pub latency: Option<u64>,
    /// The cycles of the whole run.
    pub cycles: u64,
    /// Whether the program came out as without the fault.
    pub same: bool,
    /// How the run without a checker came out.
    pub ending: OpenEnding,
}

/// A line: a fault that was injected, and what became of the run.
#[derive(Clone, Copy, Debug, PartialEq, Eq)]
pub struct Injection {
    /// The number of the fault, from 0 on.
    pub fault: u64,
    /// What the fault does.
    pub model: FaultModel,
    /// The field that it changes, if it is in one.
    pub field: Option<Field>,
    /// The bit that it changes, 0 to 31, if it is in one.
    pub bit: Option<u8>,
    /// What became of the run.
    pub effect: Effect,
}
