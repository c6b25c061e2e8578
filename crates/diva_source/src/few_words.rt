// The words of a line, as far as they are kept.
ghost use Rattle.std.specs.Prelude.{◌≡◌, ◌==◌, ◌++◌, [], ◌∷◌, if◌then◌else◌, length, nat_lt, slice_get, take};
ghost use Rattle.std.specs.Option.{option_copied};
ghost use Rattle.diva_source.specs.KeptWords.{lengthened};

use std::array;
use std::marker::Model;

/// How many bytes are kept of a word.
const WORD_BYTES: usize = 9;

/// How many words are kept of a line.
const LINE_WORDS: usize = 11;

/// A word, as far as it is kept: its first nine bytes.
#[derive(Drop)]
struct KeptWord {
    bytes: [u8; WORD_BYTES],
    length: usize,
}

impl Model for KeptWord {
    ghost use Rattle.std.specs.Prelude.{◌≤◌, take};
    ghost use Rattle.diva_outside.specs.Text.{Text};

    ghost Value = { Text };

    ghost view = { λ word. take word.length word.bytes };

    ghost invariant = { λ word. word.length ≤ 9 };
}

impl KeptWord {
    fn new() -> Self
        ensures { result ≡ [] }
    {
        KeptWord {
            bytes: [0; WORD_BYTES],
            length: 0,
        }
    }

    fn bytes(&self) -> &[u8]
        ensures { result.now ≡ self.now }
    {
        &self.bytes[..self.length]
    }

    /// The word goes on with these bytes. Eight at its beginning, which is what most words of a log are, are copied as one.
    fn extend(&mut self, letters: &[u8])
        ensures { self.new ≡ take 9 (self.old ++ letters.now) }
    {
        if self.length == 0 && letters.len() == 8 {
            self.bytes[..8].copy_from_slice(letters);
            self.length = 8;
            return;
        }
        let count = letters.len().min(WORD_BYTES - self.length);
        let end = self.length + count;
        self.bytes[self.length..end].copy_from_slice(&letters[..count]);
        self.length = end;
    }
}

/// The words of a line, as far as they are kept: its first eleven words, and of each the first nine bytes. So a word of more than eight
/// bytes shows, and a line of more than ten words.
#[derive(Drop)]
pub struct FewWords {
    words: [KeptWord; LINE_WORDS],
    count: usize,
}

impl Model for FewWords {
    ghost use Rattle.std.specs.Prelude.{◌≡◌, ◌≤◌, List, length, take};
    ghost use Rattle.diva_outside.specs.Text.{Text};

    ghost Value = { List Text };

    ghost view = { λ few. take few.count few.words };

    ghost invariant = { λ few. (few.count ≤ 11) × (length few.words ≡ 11) };
}

impl FewWords {
    /// No words.
    pub fn new() -> Self
        ensures { result ≡ [] }
    {
        FewWords {
            words: array::from_fn(|_| KeptWord::new()),
            count: 0,
        }
    }

    /// How many words there are: eleven at most.
    pub fn len(&self) -> usize
        ensures { result ≡ length self.now }
    {
        self.count
    }

    /// Whether there are none.
    pub fn is_empty(&self) -> bool
        ensures { result ≡ (length self.now == 0) }
    {
        self.count == 0
    }

    /// The word at a place, from 0 on.
    pub fn get(&self, at: usize) -> Option<&[u8]>
        ensures { option_copied result ≡ slice_get self.now at }
    {
        if at >= self.count {
            return None;
        }
        Some(self.words[at].bytes())
    }

    /// Leaves no words.
    pub(crate) fn clear(&mut self)
        ensures { self.new ≡ [] }
    {
        self.count = 0;
    }

    /// Begins one more word, unless there are eleven, and answers whether it did.
    pub(crate) fn begin(&mut self) -> bool
        ensures answer { result ≡ nat_lt (length self.old) 11 }
        ensures begun { self.new ≡ (if result then self.old ++ [] ∷ [] else self.old) }
    {
        if self.count >= LINE_WORDS {
            return false;
        }
        self.words[self.count] = KeptWord::new();
        self.count += 1;
        true
    }

    /// The last word goes on with these bytes.
    pub(crate) fn lengthen(&mut self, letters: &[u8])
        ensures { self.new ≡ lengthened self.old letters.now }
    {
        if self.count > 0 {
            let last = &mut self.words[self.count - 1];
            last.extend(letters);
        }
    }
}
