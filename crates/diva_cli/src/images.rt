// The commands `asm`, `dis` and `migrate`, each of which reads one file and writes what its image is. None of them can ask the core.
ghost use Rattle.std.specs.Prelude.{◌≡◌, ◌+◌, ◌≤◌, ◌<◌, length, slice_index};
ghost use Rattle.diva_args.specs.declared.job.Job.TheVariants.{Asm, Dis, Migrate};
ghost use Rattle.diva_asm.specs.Listing.{list_line, word_at};
ghost use Rattle.diva_cli.specs.Changes.{asking};
ghost use Rattle.diva_outside.specs.Lent.{lent};
ghost use Rattle.diva_cli.specs.Parts.{DoesJob, no_lanes};

use crate::files::{ImageFile, SourceFile, load};
use diva_args::{FileName, MigrateOptions};
use diva_asm::list_line;
use diva_core::Core;
use diva_image::{Image, write, write2};
use diva_outside::{Files, Line, LineList, Sink, put_lines};
use diva_process::{Failure, Status, write_stop};
use std::alloc::Global;

/// Assembles a source, and writes the bytes of its image in one put. All memory is taken before that, and the core can't be
/// asked.
#[inline(never)]
pub(crate) fn asm<F: Files, S: Sink, C: Core>(
    alloc: Global,
    source: FileName,
    files: &mut F,
    sink: &mut S,
    _core: &C,
) -> Result<Status, Failure>
    ensures { DoesJob C.gives (Asm source) (asking _core.now _core.now no_lanes)
        (lent F.account files.old files.new) (lent S.account sink.old sink.new) result }
{
    let image = match load(alloc, files, &SourceFile, &source) {
        Ok(image) => image,
        Err(stop) => return write_stop(stop, sink),
    };
    let bytes = write(alloc, &image)?;
    sink.put(&bytes)?;
    Ok(Status::Halted)
}

/// Writes the bytes of an image in version 2, in one put. All memory is taken before that, and the core can't be asked.
#[inline(never)]
pub(crate) fn migrate<F: Files, S: Sink, C: Core>(
    alloc: Global,
    options: MigrateOptions,
    files: &mut F,
    sink: &mut S,
    _core: &C,
) -> Result<Status, Failure>
    ensures { DoesJob C.gives (Migrate options) (asking _core.now _core.now no_lanes)
        (lent F.account files.old files.new) (lent S.account sink.old sink.new) result }
{
    let kind = ImageFile { room: options.room };
    let image = match load(alloc, files, &kind, &options.image) {
        Ok(image) => image,
        Err(stop) => return write_stop(stop, sink),
    };
    let bytes = write2(alloc, &image)?;
    sink.put(&bytes)?;
    Ok(Status::Halted)
}

/// Lists an image, each line in one put. The core can't be asked.
#[inline(never)]
pub(crate) fn dis<F: Files, S: Sink, C: Core>(
    alloc: Global,
    image: FileName,
    files: &mut F,
    sink: &mut S,
    _core: &C,
) -> Result<Status, Failure>
    ensures { DoesJob C.gives (Dis image) (asking _core.now _core.now no_lanes)
        (lent F.account files.old files.new) (lent S.account sink.old sink.new) result }
{
    let listed = match load(alloc, files, &ImageFile { room: 0 }, &image) {
        Ok(listed) => listed,
        Err(stop) => return write_stop(stop, sink),
    };
    put_lines(&ListingLines { image: &listed }, sink)?;
    Ok(Status::Halted)
}

/// The lines of an image: one for each word in which its payload has a byte.
#[derive(Drop)]
struct ListingLines<'a> {
    image: &'a Image,
}

impl LineList for ListingLines<'_> {
    ghost use Rattle.diva_image.specs.ImageLayout.{layout};
    ghost use Rattle.diva_asm.specs.Listing.{listing_of};

    ghost lines = { λ s. listing_of (layout s.image.now) };

    #[tactic(auto, using(crate::proofs::Listing::length_listing))]
    fn count(&self) -> usize {
        self.image.payload.bytes().len().div_ceil(4)
    }

    fn line(&self, at: usize) -> Line {
        let place = 4 * at;
        line_at(self.image, place)
    }
}

/// The line of the word of an image at a place in its payload.
fn line_at(image: &Image, place: usize) -> Line
    requires { place < length image.now.payload }
    ensures { result ≡ list_line (image.now.base + place) (word_at image.now.payload place) }
{
    let word = word_at(image.payload.bytes(), place);
    list_line(image.base + place as u32, word)
}

/// The word of a payload at a place, the lowest byte first; behind the payload are zeros.
#[tactic(auto, using(std::proofs::lemmas::List::take_rest))]
fn word_at(payload: &[u8], place: usize) -> u32
    requires { place ≤ length payload.now }
    ensures { result ≡ word_at payload.now place }
{
    let rest = &payload[place..];
    u32::from_le_bytes([
        byte_at(rest, 0),
        byte_at(rest, 1),
        byte_at(rest, 2),
        byte_at(rest, 3),
    ])
}

/// The byte at a place, and 0 behind the end.
fn byte_at(bytes: &[u8], place: usize) -> u8
    ensures { result ≡ slice_index bytes.now place }
{
    bytes.get(place).copied().unwrap_or(0)
}
