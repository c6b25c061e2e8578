// Lists of segments: those of a file of version 2.
ghost use Rattle.std.specs.Prelude.{◌≡◌, ◌≤◌, ◌<◌, ◌-◌, [], ◌∷◌, ◌++◌, length};
ghost use Rattle.diva_image.specs.Inner.{ArePlaced, extended};
ghost use Rattle.diva_image.specs.Layout.{most_size};
ghost use Rattle.diva_image.specs.Segments.{behind, most_segments};

use crate::segment::Segment;
use arrayvec::ArrayVec;
use std::marker::Model;

/// The most segments that a file has.
pub const MOST_SEGMENTS: usize = 16;

/// The segments of a file, in order: at most [`MOST_SEGMENTS`].
#[derive(Drop)]
pub(crate) struct Segments {
    list: ArrayVec<Segment, MOST_SEGMENTS>,
}

impl Model for Segments {
    ghost use Rattle.std.specs.Prelude.{List, length, ◌≤◌};
    ghost use Rattle.diva_image.specs.declared.segment.Segment.{Segment};
    ghost use Rattle.diva_image.specs.Segments.{most_segments};

    ghost Value = { List Segment };

    ghost view = { λ s. s.list.items };

    ghost invariant = { λ s. length s.list.items ≤ most_segments };
}

impl Segments {
    /// No segments.
    pub fn new() -> Self
        ensures { result ≡ [] }
    {
        Segments {
            list: ArrayVec::new(),
        }
    }

    /// Puts a segment behind the others.
    pub fn push(&mut self, segment: Segment)
        requires { length self.old < most_segments }
        ensures { self.new ≡ self.old ++ segment ∷ [] }
    {
        self.list.push(segment);
    }

    /// Takes in a block that lies behind the others: it is a segment of its own, or goes on the last one, where that ends
    /// at the block or no file has more segments.
    #[tactic(auto, using(crate::proofs::Stretches::extended_last))]
    pub fn extend(&mut self, block: Segment)
        requires { ArePlaced (behind block - most_size) block.addr self.old }
        ensures { self.new ≡ extended (most_segments - 1) self.old block }
    {
        let is_full = self.list.is_full();
        match self.list.pop() {
            Some(last) if is_full || last.behind() == u64::from(block.addr) => {
                self.list.push(last.up_to(block));
            }
            Some(last) => {
                self.list.push(last);
                self.list.push(block);
            }
            None => self.list.push(block),
        }
    }

    /// The segments, in order.
    pub fn as_slice(&self) -> &[Segment]
        ensures value { result.now ≡ self.now }
        ensures most { length result.now ≤ most_segments }
    {
        self.list.as_slice()
    }
}
