// How a line of a log is read.
ghost use Rattle.std.specs.Prelude.{◌≡◌, ◌==◌, List, length, slice_get};
ghost use Rattle.std.specs.Option.{option_copied};
ghost use Rattle.diva_outside.specs.NextWords.{others_of};
ghost use Rattle.diva_outside.specs.Text.{Text};
ghost use Rattle.diva_source.specs.KeptWords.{kept_of};
ghost use Rattle.diva_judge.specs.Logs.{end_said_by, first_by, number_said, said_in, said_of, with_effects};

use diva_claims::{Said, SaidEnd};
use diva_outside::{FaultKind, hex, is_word};
use diva_source::FewWords;
use std::marker::Model;

/// The kinds of faults of a line.
#[derive(Clone, Copy, Debug, PartialEq, Eq)]
pub enum Kind {
    /// A word is no hex number, nor `-`, nor `t` for the end.
    Word = 1,
    /// There are other than eight or ten words.
    WordCount = 2,
}

impl FaultKind for Kind {
    ghost use Rattle.diva_judge.specs.Logs.{log_kind_number};

    ghost number = { log_kind_number };

    fn number(self) -> u8 {
        self as u8
    }
}

/// What a line says, by its words as far as they are kept; `None` if it has no words.
///
/// There are eight words or ten: `pc word src1 src2 addr value next end [rd mask]`. Each is a number of one to eight hex digits, or `-`, which
/// says nothing; for the end `t` says that it is some trap.
#[tactic(auto, using(crate::proofs::Keeping::said_kept))]
pub fn read_said(words: &FewWords) -> Result<Option<Said>, Kind>
    ensures { (all : List Text) → words.now ≡ kept_of all → result ≡ said_of all }
{
    read_kept(words)
}

/// The same, as what the words that are kept say.
fn read_kept(words: &FewWords) -> Result<Option<Said>, Kind>
    ensures { result ≡ said_of words.now }
{
    if words.is_empty() {
        return Ok(None);
    }
    let mut rest = RestOfWords { words, at: 0 };
    match rest.said() {
        Ok(said) => Ok(Some(said)),
        Err(kind) => Err(kind),
    }
}

/// The words of a line that are yet to be read.
#[derive(Drop)]
struct RestOfWords<'a> {
    words: &'a FewWords,
    at: usize,
}

impl<'a> Model for RestOfWords<'a> {
    ghost use Rattle.std.specs.Prelude.{List, drop, length, ◌≤◌};
    ghost use Rattle.diva_outside.specs.Text.{Text};

    ghost Value = { List Text };

    ghost view = { λ rest. drop rest.at rest.words.now };

    ghost invariant = { λ rest. rest.at ≤ length rest.words.now };
}

impl<'a> RestOfWords<'a> {
    /// What the line says.
    #[tactic(auto, unfolding(crate::specs::Logs::said_in))]
    fn said(&mut self) -> Result<Said, Kind>
        ensures { result ≡ said_in self.old }
    {
        let said = Said {
            pc: self.number()?,
            word: self.number()?,
            src1: self.number()?,
            src2: self.number()?,
            addr: self.number()?,
            value: self.number()?,
            next: self.number()?,
            end: self.end()?,
            rd: None,
            mask: None,
        };
        self.effects(said)
    }

    /// The same, with what is said after the end: nothing, or the register and the bytes.
    fn effects(&mut self, said: Said) -> Result<Said, Kind>
        ensures { result ≡ with_effects said self.old }
    {
        if self.is_empty() {
            return Ok(said);
        }
        let rd = self.number()?;
        let mask = self.number()?;
        if !self.is_empty() {
            return Err(Kind::WordCount);
        }
        Ok(Said { rd, mask, ..said })
    }

    /// The next word, a number or nothing.
    fn number(&mut self) -> Result<Option<u32>, Kind>
        ensures number { result ≡ first_by number_said self.old }
        ensures others { self.new ≡ others_of self.old }
    {
        number_said(self.next().ok_or(Kind::WordCount)?)
    }

    /// The next word, an end or nothing.
    fn end(&mut self) -> Result<Option<SaidEnd>, Kind>
        ensures end { result ≡ first_by end_said_by self.old }
        ensures others { self.new ≡ others_of self.old }
    {
        end_said_by(self.next().ok_or(Kind::WordCount)?)
    }

    /// The next word.
    #[tactic(auto, using(crate::proofs::Keeping::first_dropped, crate::proofs::Keeping::others_dropped, crate::proofs::Keeping::none_dropped))]
    fn next(&mut self) -> Option<&'a [u8]>
        ensures word { option_copied result ≡ slice_get self.old 0 }
        ensures others { self.new ≡ others_of self.old }
    {
        if self.at >= self.words.len() {
            return None;
        }
        let word = self.words.get(self.at);
        self.at += 1;
        word
    }

    /// Whether no word is left.
    fn is_empty(&self) -> bool
        ensures { result ≡ (length self.now == 0) }
    {
        self.at == self.words.len()
    }
}

/// What a word says that is a number, or nothing.
fn number_said(word: &[u8]) -> Result<Option<u32>, Kind>
    ensures { result ≡ number_said word.now }
{
    if is_word(word, b"-") {
        return Ok(None);
    }
    match hex(word) {
        Some(number) => Ok(Some(number)),
        None => Err(Kind::Word),
    }
}

/// What a word says of the end.
fn end_said_by(word: &[u8]) -> Result<Option<SaidEnd>, Kind>
    ensures { result ≡ end_said_by word.now }
{
    if is_word(word, b"t") {
        return Ok(Some(SaidEnd::SomeTrap));
    }
    match number_said(word) {
        Ok(Some(number)) => Ok(Some(SaidEnd::Number(number))),
        Ok(None) => Ok(None),
        Err(kind) => Err(kind),
    }
}
