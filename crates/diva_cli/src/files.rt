// The kinds of files, each of which is read to something of its own, and how a file of any kind is loaded.
ghost use Rattle.std.specs.Prelude.{◌≡◌, ◌≢◌, ◌≤◌, ◌∷◌, ℕ, [], length, IfOk, IfErr, None, OnOk};
ghost use Rattle.diva_outside.specs.Files.{Has, IsUncounted};
ghost use Rattle.diva_args.specs.Options.{IsRoomBehind};
ghost use Rattle.diva_cli.specs.Wanted.{file_limit, file_rules, file_with, first_fault};
ghost use Rattle.diva_cli.specs.Parts.{Holds, SaysFault, stop_of};
ghost use Rattle.diva_process.specs.Writing.{Stops};
ghost use Rattle.diva_outside.specs.Lent.{lent};

use diva_args::FileName;
use diva_asm::assemble;
use diva_debug::{Command, commands};
use diva_faults::Script;
use diva_image::{
    HEADER_SIZE, Image, ImageFault, MOST_SEGMENTS, MOST_SIZE, PAIR_SIZE, read_program,
};
use diva_outside::{Files, LoadFault, TextFault, What};
use diva_process::Stop;
use diva_tape::Tape;
use std::alloc::Global;

/// The most bytes that a file may have: those of the largest image.
const FILE_LIMIT: usize = HEADER_SIZE + PAIR_SIZE * MOST_SEGMENTS + MOST_SIZE as usize;

/// A kind of file: what a file is loaded for, its room, and what its bytes are read to.
pub(crate) trait FileKind {
    ghost use Rattle.std.specs.Prelude.{List, ℕ};
    ghost use Rattle.diva_outside.specs.declared.files.What.{What};

    /// What the bytes are read to.
    type Read: Drop;

    /// What a file is loaded for.
    ghost WHAT: { What };

    const WHAT: What;

    /// How many bytes of memory follow those that a file loads where it is an executable.
    ghost room: { Self → ℕ };

    /// This is what the bytes are read to.
    ghost reads: { Self → List ℕ → Self.Read → Type 0 };

    /// Reads the bytes of a file, or says its first fault.
    fn read(&self, alloc: Global, bytes: &[u8]) -> Result<Self::Read, Stop>
        requires { length bytes.now ≤ file_limit }
        ensures read { IfOk result (reads self.now bytes.now) }
        ensures faultless { OnOk result (first_fault WHAT (room self.now) bytes.now ≡ None) }
        ensures fault { IfErr result (SaysFault WHAT (room self.now) bytes.now) };
}

/// What the file of this name is read to.
pub(crate) fn load<F: Files, K: FileKind>(
    alloc: Global,
    files: &mut F,
    kind: &K,
    name: &FileName,
) -> Result<K::Read, Stop>
    ensures stays { (F.account files.new).contents ≡ (F.account files.old).contents }
    ensures later { (w : What) → (F.account files.old).faults w ≤ (F.account files.new).faults w }
    ensures others { (w : What) → w ≢ K.WHAT → (F.account files.new).faults w ≡ (F.account files.old).faults w }
    ensures uncounted { OnOk result (IsUncounted (lent F.account files.old files.new)) }
    ensures holds { IfOk result (λ read. Holds (F.account files.old).contents
        (file_with (K.room kind.now) K.WHAT name.now) (λ bytes. K.reads kind.now bytes read)) }
    ensures stopped { IfErr result (λ stop. Stops file_rules (F.account files.old) (F.account files.new) (file_with (K.room kind.now) K.WHAT name.now ∷ []) stop) }
{
    let bytes = load_bytes(alloc, files, K::WHAT, name)?;
    kind.read(alloc, &bytes)
}

/// The bytes of a file, whatever its room.
fn load_bytes<F: Files>(
    alloc: Global,
    files: &mut F,
    what: What,
    name: &FileName,
) -> Result<Vec<u8>, Stop>
    ensures stays { (F.account files.new).contents ≡ (F.account files.old).contents }
    ensures later { (w : What) → (F.account files.old).faults w ≤ (F.account files.new).faults w }
    ensures others { (w : What) → w ≢ what → (F.account files.new).faults w ≡ (F.account files.old).faults w }
    ensures uncounted { OnOk result (IsUncounted (lent F.account files.old files.new)) }
    ensures has { IfOk result (λ bytes. Has (F.account files.old).contents name.now bytes.items) }
    ensures short { IfOk result (λ bytes. length bytes.items ≤ file_limit) }
    ensures stopped { (room : ℕ) → IfErr result (λ stop. Stops file_rules (F.account files.old) (F.account files.new) (file_with room what name.now ∷ []) stop) }
{
    match files.load(alloc, what, name.as_str(), FILE_LIMIT) {
        Ok(bytes) => Ok(bytes),
        Err(LoadFault::Failed) => Err(Stop::Unread(what)),
        Err(LoadFault::TooLong) => Err(Stop::refused(what, 0, FILE_LIMIT as u64)),
        Err(LoadFault::Memory) => Err(Stop::Memory),
    }
}

/// A file that is refused for a fault of its text, or for which memory ran out.
fn stop_of(what: What, fault: TextFault) -> Stop
    ensures { result ≡ stop_of what fault }
{
    match fault {
        TextFault::Bad { line, kind } => Stop::refused(what, kind, line),
        TextFault::Memory => Stop::Memory,
    }
}

/// A file that is taken for an image: an image's file, or an executable.
#[derive(Drop)]
pub(crate) struct ImageFile {
    /// How many bytes of memory follow those that an executable loads.
    pub room: u32,
    ghost rules: { IsRoomBehind room },
}

impl FileKind for ImageFile {
    ghost use Rattle.diva_image.specs.ImageLayout.{layout};
    ghost use Rattle.diva_image.specs.Programs.{image_in};
    ghost use Rattle.diva_outside.specs.declared.files.What.TheVariants as file;

    type Read = Image;

    ghost WHAT = { file.Image };

    const WHAT: What = What::Image;

    ghost room = { λ kind. kind.room };

    ghost reads = { λ kind bytes image. image_in kind.room bytes ≡ layout image };

    fn read(&self, alloc: Global, bytes: &[u8]) -> Result<Image, Stop> {
        match read_program(alloc, bytes, self.room) {
            Ok(image) => Ok(image),
            Err(ImageFault::Bad { kind, place }) => Err(Stop::refused(
                What::Image,
                kind,
                place.into(),
            )),
            Err(ImageFault::Memory) => Err(Stop::Memory),
        }
    }
}

/// A source, which is assembled to an image.
pub(crate) struct SourceFile;

impl FileKind for SourceFile {
    ghost use Rattle.std.specs.Prelude.{Ok};
    ghost use Rattle.diva_asm.specs.Sources.{source_of};
    ghost use Rattle.diva_image.specs.ImageLayout.{layout};
    ghost use Rattle.diva_outside.specs.declared.files.What.TheVariants as file;

    type Read = Image;

    ghost WHAT = { file.Source };

    const WHAT: What = What::Source;

    ghost room = { λ kind. 0 };

    ghost reads = { λ kind bytes image. source_of bytes ≡ Ok (layout image) };

    fn read(&self, alloc: Global, bytes: &[u8]) -> Result<Image, Stop> {
        match assemble(alloc, bytes) {
            Ok(image) => Ok(image),
            Err(fault) => Err(stop_of(What::Source, fault)),
        }
    }
}

/// A script.
pub(crate) struct ScriptFile;

impl FileKind for ScriptFile {
    ghost use Rattle.std.specs.Prelude.{Ok};
    ghost use Rattle.diva_faults.specs.Reading.{script_of};
    ghost use Rattle.diva_outside.specs.declared.files.What.TheVariants as file;

    type Read = Script;

    ghost WHAT = { file.Script };

    const WHAT: What = What::Script;

    ghost room = { λ kind. 0 };

    ghost reads = { λ kind bytes script. script_of bytes ≡ Ok script };

    fn read(&self, alloc: Global, bytes: &[u8]) -> Result<Script, Stop> {
        match Script::read(alloc, bytes) {
            Ok(script) => Ok(script),
            Err(fault) => Err(stop_of(What::Script, fault)),
        }
    }
}

/// A tape.
pub(crate) struct TapeFile;

impl FileKind for TapeFile {
    ghost use Rattle.std.specs.Prelude.{Ok};
    ghost use Rattle.diva_tape.specs.Tapes.{tape_of};
    ghost use Rattle.diva_outside.specs.declared.files.What.TheVariants as file;

    type Read = Tape;

    ghost WHAT = { file.Tape };

    const WHAT: What = What::Tape;

    ghost room = { λ kind. 0 };

    ghost reads = { λ kind bytes tape. tape_of bytes ≡ Ok tape };

    fn read(&self, alloc: Global, bytes: &[u8]) -> Result<Tape, Stop> {
        match Tape::read(alloc, bytes) {
            Ok(tape) => Ok(tape),
            Err(fault) => Err(stop_of(What::Tape, fault)),
        }
    }
}

/// The commands of a session.
pub(crate) struct CommandsFile;

impl FileKind for CommandsFile {
    ghost use Rattle.diva_cli.specs.Parts.{AreCommands};
    ghost use Rattle.diva_outside.specs.declared.files.What.TheVariants as file;

    type Read = Vec<Command>;

    ghost WHAT = { file.Commands };

    const WHAT: What = What::Commands;

    ghost room = { λ kind. 0 };

    ghost reads = { λ kind bytes commands. AreCommands bytes commands.items };

    fn read(&self, alloc: Global, bytes: &[u8]) -> Result<Vec<Command>, Stop> {
        match commands(alloc, bytes) {
            Ok(commands) => Ok(commands),
            Err(fault) => Err(stop_of(What::Commands, fault)),
        }
    }
}
