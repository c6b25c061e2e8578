// What a command line asks for.
use crate::campaign::CampaignOptions;
use crate::file_name::FileName;
use crate::rows::{Cycles, SoakLength};
use diva_core::Config;
use std::marker::Model;

/// The most bytes of memory that are shown.
pub(crate) const MOST_DUMPED: u32 = 4096;

/// A command with its options. On the command line, numbers are spelled with 1 to 10 decimal digits.
#[derive(Debug, Drop)]
pub enum Job {
    /// `run IMAGE`: runs an image, and shows how it ended.
    Run(RunOptions),
    /// `tape IMAGE`: runs an image, and writes down the lists that were handed over.
    Tape(TapeOptions),
    /// `duo IMAGE`: runs an image on two harts over one memory, and shows how each ended.
    Duo(DuoOptions),
    /// `debug IMAGE COMMANDS`: replies to commands that step through an image and show it.
    Debug(DebugOptions),
    /// `asm SRC`: assembles the source of this name. The name is the word as it is, as `IMAGE` of `run` is.
    Asm(FileName),
    /// `dis IMAGE`: lists the image of this name. The name is the word as it is.
    Dis(FileName),
    /// `migrate IMAGE`: writes an image in version 2.
    Migrate(MigrateOptions),
    /// `soak SEED LENGTH`: runs the image of a seed twice, under two cores.
    Soak(SoakOptions),
    /// `campaign IMAGE LAST`: runs an image once as it is, and then once for each bit of each field of the claim of each
    /// cycle up to `LAST`, with that bit flipped; and counts what became of these runs.
    Campaign(CampaignOptions),
}

/// What commands have in common that run an image: the image, the memory that follows what an executable loads, the core,
/// the script, and the numbers of the machine.
#[derive(Debug, Drop)]
pub struct Setup {
    /// `IMAGE`: the name of the image's file. It is the word as it is, which may be empty or `-`. A longer name that
    /// begins with `-` has to stand behind the word `--`.
    pub image: FileName,
    /// `--room`: how many bytes of memory follow those that an executable loads, for its stack: a multiple of 4, 0 to
    /// 16,777,212; 0 by default. It has no effect on an image file.
    pub room: u32,
    /// `--core` with `--tape`: the core that the checker watches; the program's own where neither is given.
    pub core: CoreChoice,
    /// `--script`: the name of the file whose rows are laid over what the core hands over. It is the word as it is; with
    /// no such word nothing is laid over.
    pub script: Option<FileName>,
    /// `--width`, `--window`, `--stores`, `--watchdog` and `--port`: the claims accepted and judged in a cycle at most (1 to 4;
    /// 2 by default), the claims pending at most (8 to 64; 16 by default), the owed stores at most (1 to 6; 4 by default),
    /// the watchdog's limit in cycles (16 to 1,024; 64 by default), and how many cycles there are from one store that memory's
    /// port takes to the next (1 to 6; 1 by default).
    pub config: Config,
}

impl Model for Setup {
    ghost use Rattle.diva_args.specs.Options.{IsRoomBehind, Setup};
    ghost use Rattle.diva_core.specs.Machine.{IsConfig};

    ghost Value = { Setup };

    ghost view = { λ s. record { image = s.image; room = s.room; core = s.core; script = s.script; config = s.config } };

    ghost invariant = { λ s. IsConfig s.config × IsRoomBehind s.room };
}

/// `run IMAGE` with its options.
#[derive(Debug, Drop)]
pub struct RunOptions {
    /// The image, its core and its machine.
    pub setup: Setup,
    /// `--cycles`: the cycles to run at most; 1,000,000 by default.
    pub cycles: Cycles,
    /// `--trace`: a line for each committed instruction.
    pub trace: bool,
    /// `--dump ADDR:LEN`, with 1 to 8 hex digits for the address: the part of memory to show at the end; `None` where
    /// the option is not given.
    pub dump: Option<DumpRange>,
    /// `--liar`: the place, 0, 1 or 2, of the one of three voting lanes that lies; `None` where the option is not given, and
    /// nothing is voted on.
    pub liar: Option<LanePlace>,
}

/// `tape IMAGE` with its options.
#[derive(Debug, Drop)]
pub struct TapeOptions {
    /// The image, its core and its machine.
    pub setup: Setup,
    /// `--cycles`: the cycles to run at most; 1,000,000 by default.
    pub cycles: Cycles,
}

/// `duo IMAGE` with its options.
#[derive(Debug, Drop)]
pub struct DuoOptions {
    /// `IMAGE`: the name of the image's file, with what is said of that of `run`.
    pub image: FileName,
    /// `--room`: how many bytes of memory follow those that an executable loads: a multiple of 4, 0 to 16,777,212; 0 by
    /// default. It has no effect on an image file.
    pub room: u32,
    /// `--core`: the core that each hart's checker watches; `scalar` by default.
    pub core: HartCore,
    /// `--width`, `--window`, `--stores` and `--watchdog`: the numbers of each hart, as they are for `run`. Memory's port takes
    /// a store in any cycle: that number is 1.
    pub config: Config,
    /// `--cycles`: the cycles to run at most; 1,000,000 by default.
    pub cycles: Cycles,
    /// `--dump ADDR:LEN`, with 1 to 8 hex digits for the address: the part of the shared memory to show at the end; `None`
    /// where the option is not given.
    pub dump: Option<DumpRange>,
}

impl Model for DuoOptions {
    ghost use Rattle.std.specs.Prelude.{◌≡◌};
    ghost use Rattle.diva_args.specs.Options.{DuoOptions, IsRoomBehind};
    ghost use Rattle.diva_core.specs.Machine.{IsConfig};

    ghost Value = { DuoOptions };

    ghost view = { λ d. record { image = d.image; room = d.room; core = d.core; config = d.config; cycles = d.cycles; dump = d.dump } };

    ghost invariant = { λ d. IsConfig d.config × (d.config.port ≡ 1) × IsRoomBehind d.room };
}

/// The core that each of two harts' checkers watches.
#[derive(Clone, Copy, Debug, PartialEq, Eq)]
pub enum HartCore {
    /// `scalar`: right claims, one in each cycle that has room for it.
    Scalar,
    /// `lockstep`: one right claim at a time.
    Lockstep,
    /// `silent`: no claim, ever.
    Silent,
}

/// `debug IMAGE COMMANDS` with its options.
#[derive(Debug, Drop)]
pub struct DebugOptions {
    /// The image, its core and its machine, which has width 1, so that it stops at any count.
    pub setup: Setup,
    /// `COMMANDS`: the name of the file of commands, with what is said of `IMAGE`.
    pub commands: FileName,
}

impl Model for DebugOptions {
    ghost use Rattle.std.specs.Prelude.{◌≡◌};
    ghost use Rattle.diva_args.specs.Options.{DebugOptions};

    ghost Value = { DebugOptions };

    ghost view = { λ d. record { setup = d.setup; commands = d.commands } };

    ghost invariant = { λ d. d.setup.config.width ≡ 1 };
}

/// `migrate IMAGE` with its option.
#[derive(Debug, Drop)]
pub struct MigrateOptions {
    /// `IMAGE`: the name of the image's file. It is the word as it is.
    pub image: FileName,
    /// `--room`: how many bytes of memory follow those that an executable loads, for its stack: a multiple of 4, 0 to
    /// 16,777,212; 0 by default. It has no effect on an image file.
    pub room: u32,
}

impl Model for MigrateOptions {
    ghost use Rattle.diva_args.specs.Options.{IsRoomBehind, MigrateOptions};

    ghost Value = { MigrateOptions };

    ghost view = { λ m. record { image = m.image; room = m.room } };

    ghost invariant = { λ m. IsRoomBehind m.room };
}

/// `soak SEED LENGTH`. It names no file, and has no options.
#[derive(Debug, Drop)]
pub struct SoakOptions {
    /// `SEED`: the number from which the image's instructions are drawn, 0 to 4,294,967,295.
    pub seed: u32,
    /// `LENGTH`: how many instructions are drawn.
    pub instructions: SoakLength,
}

/// The core that the checker watches.
#[derive(Debug, Drop)]
pub enum CoreChoice {
    /// `own`: the core that the program hands in.
    Own,
    /// `lockstep`: one right claim at a time.
    Lockstep,
    /// `scalar`: right claims, one in each cycle that has room for it.
    Scalar,
    /// `silent`: no claim, ever.
    Silent,
    /// `flood`: eight claims of zeros in every call.
    Flood,
    /// `echo`: the due record again in each call with room for it, while it is pending too.
    Echo,
    /// `noise`: a claim of numbers that mean nothing in every call.
    Noise,
    /// `tape`: the lists in the file that `--tape` names, which is given for this core and for no other. The name is the
    /// word as it is, which may be empty.
    Tape(FileName),
}

/// The place of one of three voting lanes.
#[derive(Clone, Copy, Debug, PartialEq, Eq)]
pub enum LanePlace {
    /// `0`
    First,
    /// `1`
    Second,
    /// `2`
    Third,
}

/// A part of memory, of 1 to 4,096 bytes, that ends at 2^32 at the latest.
#[derive(Clone, Copy, Debug, PartialEq, Eq)]
pub struct DumpRange {
    /// The address of the first byte.
    pub addr: u32,
    /// The number of bytes, 1 to 4,096.
    pub len: u32,
}

impl Model for DumpRange {
    ghost use Rattle.diva_args.specs.Options.{DumpRange, IsDump};

    ghost Value = { DumpRange };

    ghost view = { λ d. record { addr = d.addr; len = d.len } };

    ghost invariant = { λ d. IsDump d.addr d.len };

    ghost inverse = { λ d. record { addr = d.addr; len = d.len } };
}
