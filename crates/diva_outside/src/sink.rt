// A sink of bytes, piece by piece.
ghost use Rattle.diva_outside.specs.Lent.{lent};
ghost use Rattle.diva_outside.specs.Sink.{SinkAccount, PutsTo};

/// A put failed: its piece was not taken whole.
#[derive(Clone, Copy, Debug, PartialEq, Eq)]
pub struct SinkFailed;

/// What takes a program's text.
pub trait Sink {
    /// What the sink tells of itself: its contents, which are the bytes taken so far, `None` where they are not known; and how
    /// often it has failed.
    ghost account: { Self → SinkAccount };

    /// Appends the piece. Where that fails, a prefix of the piece was appended and a fault was counted.
    fn put(&mut self, piece: &[u8]) -> Result<(), SinkFailed>
        ensures { PutsTo (lent account self.old self.new) piece.now result };
}
