// A source to its image, or to its first fault.
ghost use Rattle.std.specs.Prelude.{◌≡◌, ◌≤◌, ◌+◌, ◌*◌, ◌/◌, Ok, max, IfOk, IfErr};
ghost use Rattle.diva_image.specs.ImageLayout.{layout};
ghost use Rattle.diva_image.specs.Layout.{most_size};
ghost use Rattle.diva_outside.specs.TextFaults.{IsFirstFault};
ghost use Rattle.diva_outside.specs.declared.text_fault.TextFault.TheVariants.{Bad};
ghost use Rattle.diva_asm.specs.Sources.{image_of_built, source_of};
ghost use Rattle.diva_asm.specs.Kinds.{source_kind_number};
ghost use Rattle.diva_asm.specs.declared.fault.Kind.TheVariants.{NoImage};

use crate::building::Built;
use crate::fault::{AsmFault, Kind, Stop};
use crate::labels::Labels;
use crate::laying::Laid;
use diva_image::{Image, MOST_SIZE};
use diva_outside::{FaultKind, LineReader, fold_lines};
use std::alloc::Global;

/// The image of a source. The error is its first fault, or `Memory` where memory runs out.
///
/// The time that it takes is linear in the source's length but for the labels, which are looked up in a sorted map.
#[tactic(auto, unfolding(crate::specs::Sources::source_of))]
pub fn assemble(alloc: Global, source: &[u8]) -> Result<Image, AsmFault>
    ensures image { IfOk result (λ image. source_of source.now ≡ Ok (layout image)) }
    ensures fault { IfErr result (IsFirstFault (source_of source.now)) }
{
    let laid = fold_lines(&FirstPass, Laid::new(alloc), source)?;
    let second = SecondPass {
        base: laid.base.unwrap_or(0),
        labels: &laid.labels,
    };
    let built = fold_lines(&second, Built::new(alloc, laid.total)?, source)?;
    image_of(laid.base, laid.size, built)
}

/// The first pass, which lays lines.
struct FirstPass;

impl<'a> LineReader<'a> for FirstPass {
    ghost use Rattle.diva_asm.specs.Laying.{with_line};

    type Kept = Laid<'a>;

    type Kind = Kind;

    ghost step = { λ pass. with_line };

    fn line(&self, laid: Laid<'a>, line: &'a [u8]) -> Result<Laid<'a>, Stop> {
        laid.with_line(line)
    }
}

/// The second pass, which builds them, where the labels stand.
#[derive(Drop)]
struct SecondPass<'l, 'n> {
    base: u32,
    labels: &'l Labels<'n>,
}

impl LineReader<'_> for SecondPass<'_, '_> {
    ghost use Rattle.diva_asm.specs.Building.{built_line};

    type Kept = Built;

    type Kind = Kind;

    ghost step = { λ pass. built_line pass.base pass.labels.now };

    fn line(&self, built: Built, line: &[u8]) -> Result<Built, Stop> {
        built.with_line(self.base, self.labels, line)
    }
}

/// The image of what was built, if it keeps the rules.
#[tactic(auto, using(crate::proofs::Ending::too_long), unfolding(crate::specs::Sources::image_of_built))]
fn image_of(base: Option<u32>, size: Option<u32>, built: Built) -> Result<Image, AsmFault>
    ensures image { IfOk result (λ image. image_of_built base size built ≡ Ok (layout image)) }
    ensures fault { IfErr result (IsFirstFault (image_of_built base size built)) }
{
    let base = base.unwrap_or(0);
    let entry = built.entry.unwrap_or(base);
    let len = built.bytes.len();
    if (MOST_SIZE as usize) < len {
        return Err(no_image());
    }
    let size = size.unwrap_or(least_size(len as u32));
    match Image::new(base, size, entry, built.bytes.into_vec()) {
        Some(image) => Ok(image),
        None => Err(no_image()),
    }
}

/// The fault of a source whose image breaks the rules.
fn no_image() -> AsmFault
    ensures { result ≡ Bad 0 (source_kind_number NoImage) }
{
    AsmFault::Bad {
        line: 0,
        kind: Kind::NoImage.number(),
    }
}

/// The least multiple of 4 that holds so many bytes, at least 4.
fn least_size(len: u32) -> u32
    requires { len ≤ most_size }
    ensures { result ≡ max 4 ((len + 3) / 4 * 4) }
{
    let size = (len + 3) / 4 * 4;
    size.max(4)
}
