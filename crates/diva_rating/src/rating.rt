// Files of lines, which are read one after the other, and the rates of all of these.
ghost use Rattle.std.specs.Prelude.{◌≡◌, ◌≤◌, ◌<◌, ◌^◌, IfOk, IfErr, OnErr, List};
ghost use Rattle.diva_outside.specs.Lent.{lent};
ghost use Rattle.diva_outside.specs.Sink.{PutsTo};
ghost use Rattle.diva_process.specs.Programs.{FileBytes};
ghost use Rattle.diva_process.specs.Writing.{WritesText};
ghost use Rattle.diva_rating.specs.Inner.{CantRead, HasRatesOf, StopsReading, WritesStop};
ghost use Rattle.diva_rating.specs.Rated.{HasKept, IsTextOf, fault_text, rating_of, refused_line, unread_line};

use diva_args::FileName;
use diva_outside::{Line, Sink, SinkFailed, put_line};
use diva_process::{Failure, Status};
use diva_rate::{Injections, RateFault, Rates, write_rates};
use diva_source::{Source, SourceFailed};
use std::alloc::{AllocError, Global};

/// Reads the lines of the files of these names, one after the other, and writes their rates. A line says why, if a file can't be read
/// (status 8) or has a line with a fault (5), or memory runs out for the lines (8). The source is left open at the last text that was read.
pub fn rate_files<D: Source, S: Sink>(
    alloc: Global,
    names: &[FileName],
    source: &mut D,
    sink: &mut S,
) -> Result<Status, Failure>
    ensures { (bytes : FileBytes) → WritesText (rating_of (lent D.account source.old source.new)) names.now bytes
        (lent S.account sink.old sink.new) result }
{
    match read_rates(alloc, names, source) {
        Ok(rates) => {
            write_rates(&rates, sink)?;
            Ok(Status::Halted)
        }
        Err(stop) => write_stop(&stop, sink),
    }
}

/// Why the lines of some files can't be rated.
#[derive(Drop)]
enum RateStop<'n> {
    /// The file of this name can't be read.
    Unread(&'n FileName),
    /// Its first line with a fault, and the fault.
    Refused {
        name: &'n FileName,
        line: u64,
        kind: u8,
    },
    /// Memory ran out.
    Memory,
}

impl From<AllocError> for RateStop<'_> {
    ghost use Rattle.diva_rating.specs.declared.rating.RateStop.TheVariants.{Memory};

    ghost from_gives = { λ _ stop. stop ≡ Memory };

    fn from(_: AllocError) -> Self {
        RateStop::Memory
    }
}

/// The rates of the lines of some files.
fn read_rates<'n, D: Source>(
    alloc: Global,
    names: &'n [FileName],
    source: &mut D,
) -> Result<Rates, RateStop<'n>>
    ensures rates { IfOk result (HasRatesOf (D.account source.old).contents names.entry.now) }
    ensures stopped { IfErr result (StopsReading (lent D.account source.old source.new) names.entry.now) }
{
    Ok(read_files(alloc, names, source)?.rates(alloc)?)
}

/// The lines of some files.
fn read_files<'n, D: Source>(
    alloc: Global,
    names: &'n [FileName],
    source: &mut D,
) -> Result<Injections, RateStop<'n>>
    ensures kept { IfOk result (HasKept (D.account source.old).contents names.entry.now) }
    ensures stopped { IfErr result (StopsReading (lent D.account source.old source.new) names.entry.now) }
{
    let mut kept = Injections::new(alloc);
    for name in names {
        let text = match read_text(alloc, source, name.as_str()) {
            Ok(text) => text,
            Err(ReadStop::Unread) => return Err(RateStop::Unread(name)),
            Err(ReadStop::Memory) => return Err(RateStop::Memory),
        };
        kept = match kept.read(&text) {
            Ok(kept) => kept,
            Err(RateFault::Bad { line, kind }) => return Err(RateStop::Refused {
                name,
                line,
                kind,
            }),
            Err(RateFault::Memory) => return Err(RateStop::Memory),
        };
    }
    Ok(kept)
}

/// Why a text was not read.
enum ReadStop {
    /// It can't be opened, or not be read to its end.
    Unread,
    /// Memory ran out.
    Memory,
}

impl From<SourceFailed> for ReadStop {
    ghost use Rattle.diva_rating.specs.declared.rating.ReadStop.TheVariants.{Unread};

    ghost from_gives = { λ _ stop. stop ≡ Unread };

    fn from(_: SourceFailed) -> Self {
        ReadStop::Unread
    }
}

impl From<AllocError> for ReadStop {
    ghost use Rattle.diva_rating.specs.declared.rating.ReadStop.TheVariants.{Memory};

    ghost from_gives = { λ _ stop. stop ≡ Memory };

    fn from(_: AllocError) -> Self {
        ReadStop::Memory
    }
}

/// How many bytes are read at once, at most.
const PIECE_BYTES: usize = 16_384;

/// The whole text of a name.
fn read_text<D: Source>(alloc: Global, source: &mut D, name: &str) -> Result<Vec<u8>, ReadStop>
    ensures stays { (D.account source.new).contents ≡ (D.account source.old).contents }
    ensures later { (D.account source.old).faults ≤ (D.account source.new).faults }
    ensures text { IfOk result (λ text. IsTextOf (D.account source.old).contents name.now text.items) }
    ensures unread { IfErr result (CantRead (lent D.account source.old source.new) name.now) }
{
    source.open(name)?;
    let mut text = Vec::new(alloc);
    let mut piece = [0; PIECE_BYTES];
    loop {
        let count = source.read(&mut piece)?;
        if count == 0 {
            return Ok(text);
        }
        text.extend_from_slice(&piece[..count])?;
    }
}

/// Writes why the lines can't be rated.
fn write_stop<S: Sink>(stop: &RateStop<'_>, sink: &mut S) -> Result<Status, Failure>
    ensures { WritesStop stop.now (lent S.account sink.old sink.new) result }
{
    match stop {
        RateStop::Unread(name) => {
            put_unread(name, sink)?;
            Ok(Status::Unread)
        }
        RateStop::Refused { name, line, kind } => {
            put_refused(name, *line, *kind, sink)?;
            Ok(Status::Refused)
        }
        RateStop::Memory => {
            sink.put(b"no memory\n")?;
            Ok(Status::Unread)
        }
    }
}

/// Puts that the file of a name can't be read.
fn put_unread<S: Sink>(name: &FileName, sink: &mut S) -> Result<(), SinkFailed>
    ensures { PutsTo (lent S.account sink.old sink.new) (unread_line name.now) result }
{
    sink.put(b"unreadable ")?;
    sink.put(name.as_str().as_bytes())?;
    sink.put(b"\n")
}

/// Puts that a line of the file of a name has a fault.
fn put_refused<S: Sink>(
    name: &FileName,
    line: u64,
    kind: u8,
    sink: &mut S,
) -> Result<(), SinkFailed>
    ensures { PutsTo (lent S.account sink.old sink.new) (refused_line name.now (record { line = line; kind = kind })) result }
{
    sink.put(b"refused ")?;
    sink.put(name.as_str().as_bytes())?;
    put_line(&fault_text(line, kind), sink)
}

/// The kind of a fault, and its line.
#[tactic(auto, unfolding(crate::specs::Rated::fault_text))]
fn fault_text(line: u64, kind: u8) -> Line
    ensures { result ≡ fault_text (record { line = line; kind = kind }) }
{
    let mut text = Line::new();
    text.push(b' ');
    text.decimal(u64::from(kind));
    text.text(b" at ");
    text.decimal(line);
    text.push(b'\n');
    text
}
