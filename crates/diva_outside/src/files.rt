// Files by name, as a program that only loads them sees them.
ghost use Rattle.std.specs.Prelude.{◌≡◌, ◌≤◌, ◌≢◌, ◌⊎◌, length, IfOk, IsErrOf};
ghost use Rattle.diva_outside.specs.declared.files.What.{What};
ghost use Rattle.diva_outside.specs.declared.files.LoadFault.TheVariants.{Memory};
ghost use Rattle.diva_outside.specs.Causes.{Rose};
ghost use Rattle.diva_outside.specs.Files.{FilesAccount, Has, HasNotFailed, IsMissing, IsLonger};

use std::alloc::{AllocError, AllocFailed, Global};

/// What a file is loaded for.
#[derive(Clone, Copy, Debug, PartialEq, Eq)]
pub enum What {
    /// An image, from which a machine starts.
    Image,
    /// A script of faults, which is laid over a core.
    Script,
    /// A tape of claims, which a core plays.
    Tape,
    /// The source text of a program.
    Source,
    /// The commands of a debugging session.
    Commands,
}

/// Why a file was not loaded.
#[derive(Clone, Copy, Debug, PartialEq, Eq)]
pub enum LoadFault {
    /// There is no such file, or it could not be read.
    Failed,
    /// The file has more bytes than the limit.
    TooLong,
    /// Out of memory.
    Memory,
}

impl From<AllocError> for LoadFault {
    ghost from_gives = { λ _ e. e ≡ Memory };

    fn from(_: AllocError) -> Self {
        LoadFault::Memory
    }
}

impl<T: Drop> From<AllocFailed<T>> for LoadFault {
    ghost from_gives = { λ _ e. e ≡ Memory };

    fn from(_: AllocFailed<T>) -> Self {
        LoadFault::Memory
    }
}

/// Files that can be loaded.
pub trait Files {
    /// What the files tell of themselves: their contents, `None` where they are not known, else for each name its bytes, or `None`
    /// where no file has that name; and how often loads of each kind of file have failed. An empty file has bytes, the empty list.
    ghost account: { Self → FilesAccount };

    /// Loads the whole file of that name, which may have `limit` bytes at most. `what` is the kind of file for which a
    /// failure is counted; the counts of the other kinds stay as they are.
    ///
    /// The error is `TooLong` where the file has more than `limit` bytes, `Memory` where memory runs out, and `Failed`
    /// where there is no such file or the load fails otherwise: only then is a fault counted. Where the contents are known, a
    /// name that no file has is answered by `Failed` or `Memory`, and is not counted as a fault.
    fn load(
        &mut self,
        alloc: Global,
        what: What,
        name: &str,
        limit: usize,
    ) -> Result<Vec<u8>, LoadFault>
        // The files stay as they are, and no count falls.
        ensures stays { (account self.new).contents ≡ (account self.old).contents }
        ensures later { (w : What) → (account self.old).faults w ≤ (account self.new).faults w }

        // A load counts for its own kind alone.
        ensures others { (w : What) → w ≢ what → (account self.new).faults w ≡ (account self.old).faults w }

        // `Ok` is the whole file, where the contents are known, and never longer than the limit.
        ensures whole { IfOk result (λ v. Has (account self.old).contents name.now v.items) }
        ensures within { IfOk result (λ v. length v.items ≤ limit) }

        ensures too_long { IsErrOf result LoadFault.TooLong
            → IsLonger (account self.old).contents name.now limit }
        ensures failed { IsErrOf result LoadFault.Failed
            → Rose ((account self.old).faults what) ((account self.new).faults what) ⊎ IsMissing (account self.old).contents name.now }

        // A fault is counted only where the load fails.
        ensures counted { HasNotFailed result → (w : What) → (account self.new).faults w ≡ (account self.old).faults w }

        // A name that no file has is not counted as a fault.
        ensures missing { IsMissing (account self.old).contents name.now
            → IsErrOf result LoadFault.Failed ⊎ IsErrOf result LoadFault.Memory }
        ensures uncounted { IsMissing (account self.old).contents name.now
            → (w : What) → (account self.new).faults w ≡ (account self.old).faults w };
}
