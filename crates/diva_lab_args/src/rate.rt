// The words of `rate`.
ghost use Rattle.std.specs.Prelude.{◌≡◌, ◌≤◌, ◌++◌, length, IfOk, map};
ghost use Rattle.std.specs.List.{after_first, before_first, list_any, position};
ghost use Rattle.diva_args.specs.Fault.{Reads};
ghost use Rattle.diva_lab_args.specs.Rate.{is_dashed, is_end, names_of};

use diva_args::{ArgsFault, FileName};
use std::alloc::{AllocError, Global};
use std::marker::Model;

/// The names of one file or more, in the order of the words.
#[derive(Debug, Drop)]
pub struct FileNames {
    names: Vec<FileName>,
}

impl Model for FileNames {
    ghost use Rattle.std.specs.Prelude.{◌≤◌, List, length};
    ghost use Rattle.clap.specs.Walk.{Text};

    ghost Value = { List Text };

    ghost view = { λ f. f.names.items };

    ghost invariant = { λ f. 1 ≤ length f.names.items };
}

impl FileNames {
    /// The names in their order, one or more.
    pub fn as_slice(&self) -> &[FileName]
        ensures names { result.now ≡ self.now }
        ensures least { 1 ≤ length result.now }
    {
        self.names.as_slice()
    }
}

/// The names that the words after `rate` give. The error is `Usage` if there is none, or one that looks like an option stands before
/// `--`, and `Memory` if memory runs out.
#[tactic(auto, using(crate::proofs::RateLemmas::any_map), unfolding(crate::specs::Rate::names_of))]
pub(crate) fn rate(alloc: Global, words: &[&str]) -> Result<FileNames, ArgsFault>
    ensures { Reads (names_of (map (λ w. w.now) words.now)) result }
{
    let (given, rest) = cut(words);
    if has_dashed(given) {
        return Err(ArgsFault::Usage);
    }
    let mut names = Vec::new(alloc);
    push_names(alloc, &mut names, given)?;
    push_names(alloc, &mut names, rest)?;
    if names.is_empty() {
        Err(ArgsFault::Usage)
    } else {
        Ok(FileNames { names })
    }
}

/// The words before the first `--`, and those after it.
#[tactic(auto, using(crate::proofs::RateLemmas::before, crate::proofs::RateLemmas::after, crate::proofs::RateLemmas::all_before, crate::proofs::RateLemmas::none_after))]
fn cut<'a>(words: &'a [&'a str]) -> (&'a [&'a str], &'a [&'a str])
    ensures given { map (λ w. w.now) result.0.now ≡ before_first is_end (map (λ w. w.now) words.entry.now) }
    ensures rest { map (λ w. w.now) result.1.now ≡ after_first is_end (map (λ w. w.now) words.entry.now) }
{
    match place_of_end(words) {
        Some(place) => (&words[..place], &words[place + 1..]),
        None => (words, &[]),
    }
}

/// The place of the first `--`.
fn place_of_end(words: &[&str]) -> Option<usize>
    ensures { result ≡ position (λ word. is_end word.now) words.now }
{
    words.iter().position(|word| *word == "--")
}

/// Whether a word among these looks like an option.
fn has_dashed(words: &[&str]) -> bool
    ensures { result ≡ list_any (λ word. is_dashed word.now) words.now }
{
    words.iter().any(|word| is_dashed(word))
}

/// Whether a word looks like an option: it begins with `-`, and is longer.
fn is_dashed(word: &str) -> bool
    ensures { result ≡ is_dashed word.now }
{
    let bytes = word.as_bytes();
    bytes.len() > 1 && bytes[0] == b'-'
}

/// Puts the names after the others. The error: out of memory.
fn push_names(alloc: Global, names: &mut Vec<FileName>, words: &[&str]) -> Result<(), AllocError>
    ensures { IfOk result (λ _. names.new.items ≡ names.old.items ++ map (λ w. w.now) words.now) }
{
    for word in words {
        names.push(FileName::new(alloc, word)?)?;
    }
    Ok(())
}
