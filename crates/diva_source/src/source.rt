// Texts by name, one of which at a time is open and is read piece by piece.
ghost use Rattle.diva_outside.specs.Lent.{lent};
ghost use Rattle.diva_source.specs.Source.{SourceAccount, Opens, Reads};

/// A read failed, or nothing could be opened.
#[derive(Clone, Copy, Debug, PartialEq, Eq)]
pub struct SourceFailed;

/// Texts by name, one of which at a time is open and is read piece by piece. No text has more than `u64::MAX` bytes.
pub trait Source {
    /// What the source tells of itself: the contents of its texts, if they are known; what is yet to be read of the text that is
    /// open, if that is known, and how many bytes that has at most; and how often opening or reading has failed.
    ghost account: { Self → SourceAccount };

    /// Opens the text of that name, which is then read from its first byte on. One that was open is closed, even if the call fails.
    fn open(&mut self, name: &str) -> Result<(), SourceFailed>
        ensures { Opens (lent account self.old self.new) name.now result };

    /// Reads bytes that come next to the front of the buffer, at most as many as it has room for, and answers how many they are: none
    /// only at the end, or if there is no room. If the call fails, nothing was read and a fault was counted.
    fn read(&mut self, buffer: &mut [u8]) -> Result<usize, SourceFailed>
        ensures { Reads (lent account self.old self.new) buffer.new result };
}
