// The first pass: where each label and each statement stands.
ghost use Rattle.std.specs.Prelude.{◌≡◌};
ghost use Rattle.diva_outside.specs.TextFaults.{GivesLine};
ghost use Rattle.diva_asm.specs.Laying.{nothing_laid, here, with_label, is_short, len_of, is_free, with_bytes, with_statement, with_statement_of, with_text};
ghost use Rattle.diva_asm.specs.Texts.{without_comment};

use crate::fault::{Kind, Stop};
use crate::labels::Labels;
use crate::mnemonic::Mnemonic;
use crate::operands::{Operands, word_from};
use crate::statement::{Statement, first_label, read_statement};
use diva_image::MOST_SIZE;
use diva_outside::without_comment;
use std::alloc::Global;

/// What the lines so far have laid.
#[derive(Drop)]
pub(crate) struct Laid<'a> {
    /// The addresses of the labels.
    pub labels: Labels<'a>,
    /// How many bytes there are.
    pub total: u32,
    /// What `.base` has said.
    pub base: Option<u32>,
    /// What `.size` has said.
    pub size: Option<u32>,
    /// Whether there was an `.entry`.
    pub has_entry: bool,
}

impl<'a> Laid<'a> {
    pub fn new(alloc: Global) -> Self
        ensures { result ≡ nothing_laid }
    {
        Laid {
            labels: Labels::new(alloc),
            total: 0,
            base: None,
            size: None,
            has_entry: false,
        }
    }

    /// The address of the next byte.
    fn here(&self) -> u32
        ensures { result ≡ here self.now }
    {
        self.base.unwrap_or(0).wrapping_add(self.total)
    }

    /// With one more line.
    pub fn with_line(self, line: &'a [u8]) -> Result<Self, Stop>
        ensures { GivesLine (with_text self.entry (without_comment line.now)) result }
    {
        let mut laid = self;
        let mut text = without_comment(line);
        'label: while let Some((name, rest)) = first_label(text) {
            laid = match laid.with_label(name) {
                Ok(laid) => laid,
                Err(stop) => return Err(stop),
            };
            text = rest;
        }
        laid.with_statement_of(text)
    }

    /// With the statement of a text that begins with no label, if there is one.
    fn with_statement_of(self, text: &[u8]) -> Result<Self, Stop>
        ensures { GivesLine (with_statement_of self.entry text.now) result }
    {
        match read_statement(text)? {
            Some(statement) => self.with_statement(&statement),
            None => Ok(self),
        }
    }

    #[tactic(auto, unfolding(crate::specs::Laying::with_label))]
    fn with_label(self, name: &'a [u8]) -> Result<Self, Stop>
        ensures { GivesLine (with_label self.entry name.now) result }
    {
        if self.labels.get(name).is_some() {
            return Err(Stop::Fault(Kind::RepeatedLabel));
        }
        let here = self.here();
        let mut labels = self.labels;
        labels.insert(name, here)?;
        Ok(Laid {
            labels,
            total: self.total,
            base: self.base,
            size: self.size,
            has_entry: self.has_entry,
        })
    }

    #[tactic(auto, unfolding(crate::specs::Laying::with_statement))]
    fn with_statement(self, s: &Statement<'_>) -> Result<Self, Stop>
        ensures { GivesLine (with_statement self.entry s.now.mnemonic s.now.operands) result }
    {
        match s.mnemonic {
            Mnemonic::Base => {
                if self.base.is_some() || !self.labels.is_empty() || 0 < self.total {
                    return Err(Stop::Fault(Kind::BadDirective));
                }
                Ok(Laid {
                    base: Some(word_from(s.operands.number)),
                    ..self
                })
            }
            Mnemonic::Size => {
                if self.size.is_some() {
                    return Err(Stop::Fault(Kind::BadDirective));
                }
                Ok(Laid {
                    size: Some(word_from(s.operands.number)),
                    ..self
                })
            }
            Mnemonic::Entry => {
                if self.has_entry {
                    return Err(Stop::Fault(Kind::BadDirective));
                }
                Ok(Laid {
                    has_entry: true,
                    ..self
                })
            }
            mnemonic => self.with_bytes(mnemonic, &s.operands),
        }
    }

    /// With the bytes that a statement lays.
    #[tactic(auto, unfolding(crate::specs::Laying::with_bytes))]
    fn with_bytes(self, mnemonic: Mnemonic, operands: &Operands<'_>) -> Result<Self, Stop>
        ensures { GivesLine (with_bytes self.entry mnemonic operands.now) result }
    {
        if !is_free(mnemonic) && self.here() % 4 != 0 {
            return Err(Stop::Fault(Kind::Misaligned));
        }
        let total = u64::from(self.total) + u64::from(len_of(mnemonic, operands));
        if u64::from(MOST_SIZE) < total {
            return Err(Stop::Fault(Kind::TooManyBytes));
        }
        Ok(Laid {
            total: total as u32,
            ..self
        })
    }
}

/// Whether it may stand at any address.
fn is_free(mnemonic: Mnemonic) -> bool
    ensures { result ≡ is_free mnemonic }
{
    matches!(mnemonic, Mnemonic::Byte | Mnemonic::Space)
}

/// How many bytes a statement lays.
#[tactic(auto, unfolding(crate::specs::Laying::len_of))]
fn len_of(mnemonic: Mnemonic, operands: &Operands<'_>) -> u32
    ensures { result ≡ len_of mnemonic operands.now }
{
    match mnemonic {
        Mnemonic::Byte => 1,
        Mnemonic::Space => word_from(operands.number),
        Mnemonic::La => 8,
        Mnemonic::Li => { if is_short(operands) { 4 } else { 8 } }
        _ => 4,
    }
}

/// Whether `li` takes one word.
pub(crate) fn is_short(operands: &Operands<'_>) -> bool
    ensures { result ≡ is_short operands.now }
{
    let number = word_from(operands.number).cast_signed();
    -2048 <= number && number <= 2047
}
