// The models of faults.
ghost use Rattle.std.specs.Prelude.{◌≡◌, ◌≤◌, length};
ghost use Rattle.diva_inject.specs.Models.{model_name};

/// What kind of fault a fault is.
#[derive(Clone, Copy, Debug, PartialEq, Eq)]
pub enum FaultModel {
    /// `flip`: one bit of a claim is inverted, in one cycle.
    Flip,
    /// `set`: a field of a claim gets another value, in one cycle.
    Set,
    /// `lose`: a claim is lost, in one cycle.
    Lose,
    /// `double`: a claim is handed over twice, in one cycle.
    Double,
    /// `hush`: nothing is handed over, in some cycles.
    Hush,
    /// `stuck`: a bit of the claims in a lane is 0, or it is 1, from a cycle on.
    Stuck,
}

impl FaultModel {
    /// All models.
    pub const ALL: [FaultModel; 6] = [
        FaultModel::Flip,
        FaultModel::Set,
        FaultModel::Lose,
        FaultModel::Double,
        FaultModel::Hush,
        FaultModel::Stuck,
    ];

    /// How texts call the model: in lower case, at most six letters.
    pub fn name(self) -> &'static [u8]
        ensures name { result.now ≡ model_name self }
        ensures short { length result.now ≤ 6 }
    {
        match self {
            FaultModel::Flip => b"flip",
            FaultModel::Set => b"set",
            FaultModel::Lose => b"lose",
            FaultModel::Double => b"double",
            FaultModel::Hush => b"hush",
            FaultModel::Stuck => b"stuck",
        }
    }
}
