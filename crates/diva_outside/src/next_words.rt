// The next words of a line, each as what is due there.
ghost use Rattle.std.specs.Prelude.{◌≡◌, IfOk};
ghost use Rattle.std.specs.Str.{bytes_eq};

use crate::{LineWords, decimal, hex};

/// What is wrong with the next word of a line.
#[derive(Clone, Copy, Debug, PartialEq, Eq)]
pub enum WordFault {
    /// It is missing, or left over.
    Count,
    /// It is no number, or one out of range.
    Unreadable,
}

impl LineWords<'_> {
    ghost use Rattle.diva_outside.specs.NextWords.{first_hex, first_number, IsInRange, no_more, others_of};

    /// The next word as a decimal number from `low` to `high`.
    #[tactic(auto, unfolding(crate::specs::NextWords::first_number))]
    pub fn number(&mut self, low: u32, high: u32) -> Result<u32, WordFault>
        ensures number { result ≡ first_number low high self.old }
        ensures others { self.new ≡ others_of self.old }
        ensures range { IfOk result (IsInRange low high) }
    {
        let Some(word) = self.next() else {
            return Err(WordFault::Count);
        };
        match decimal(word) {
            Some(number) if u64::from(low) <= number && number <= u64::from(high) => {
                Ok(number as u32)
            }
            _ => Err(WordFault::Unreadable),
        }
    }

    /// The next word as a number of one to eight hex digits.
    #[tactic(auto, unfolding(crate::specs::NextWords::first_hex))]
    pub fn hex(&mut self) -> Result<u32, WordFault>
        ensures number { result ≡ first_hex self.old }
        ensures others { self.new ≡ others_of self.old }
    {
        match self.next() {
            Some(word) => hex(word).ok_or(WordFault::Unreadable),
            None => Err(WordFault::Count),
        }
    }

    /// That no word is left over.
    pub fn end(&mut self) -> Result<(), WordFault>
        ensures { result ≡ no_more self.old }
    {
        match self.next() {
            Some(_) => Err(WordFault::Count),
            None => Ok(()),
        }
    }
}

/// Whether a word has this spelling.
pub fn is_word(word: &[u8], name: &[u8]) -> bool
    ensures { result ≡ bytes_eq word.now name.now }
{
    word == name
}
