//! What a program meets outside itself: files that it loads, a sink that takes its text, and the lines and words
//! of that text.
//!
//! - `files`: the trait `Files`; `What` a file is loaded for, and `LoadFault`, why it was not loaded.
//! - `disk_files`: `DiskFiles`, the files of the operating system.
//! - `mem_files`: `MemFiles`, files in memory, where loads fail as a test asks for it.
//! - `sure_files`: `SureFiles`, files in memory that never fail.
//! - `mem_file`: `MemFile`, one file in memory, and how it is found and loaded.
//! - `faults`: how often the files of each kind have failed.
//! - `sink`: the trait `Sink`.
//! - `std_sink`: `StdSink`, a sink over a writer.
//! - `mem_sink`: `MemSink`, a sink in memory, where puts fail as a test asks for it.
//! - `sure_sink`: `SureSink`, a sink that never fails.
//! - `line`: `Line`, a line of text, written piece by piece.
//! - `line_list`: `LineList`, lines that are made one at a time, and `put_lines`, how lines are put into a sink.
//! - `text_lines`: `lines`, the lines of a text. `line_words`: `words`, the words of a line, and the line without its comment.
//! - `line_reader`: the trait `LineReader`, what lines are read to, and `fold_lines`, which reads them all. `item_reader`: the
//!   trait `ItemReader`, by which a line with words is read to an item, and `read_items`, which reads them all. `text_fault`:
//!   `TextFault`, why a text was not read; `LineStop`, why a line was not taken, and the kinds of its faults, `FaultKind`.
//! - `numbers`: `hex` and `decimal`, the numbers that words spell. `next_words`: the next word of a line as a number, or what is
//!   wrong with it, `WordFault`.
//!
//! `specs/` says what is known of files (`Files`, `Named`, `MemFiles`) and of what a sink took (`Sink`, `MemSink`, `StdSink`), and
//! how the faults of both are counted (`Causes`, `Faults`); how numbers and bytes are written (`Text`), and what words and numbers
//! a line has (`Words`, `Numbers`, `NextWords`); the lines of a text, and how they are read one after the other, to what is due or
//! to the first fault (`Lines`, `Items`, `Steps`, `TextFaults`).
#![tactic(auto)]

mod disk_files;
mod faults;
mod files;
mod item_reader;
mod line;
mod line_list;
mod line_reader;
mod line_words;
mod mem_file;
mod mem_files;
mod mem_sink;
mod next_words;
mod numbers;
mod sink;
mod std_sink;
mod sure_files;
mod sure_sink;
mod text_fault;
mod text_lines;

pub use disk_files::DiskFiles;
pub use files::{Files, LoadFault, What};
pub use item_reader::{ItemReader, read_items};
pub use line::Line;
pub use line_list::{LineList, put_line, put_lines};
pub use line_reader::{LineReader, fold_lines};
pub use line_words::{LineWords, without_comment, words};
pub use mem_file::MemFile;
pub use mem_files::MemFiles;
pub use mem_sink::{Fail, MemSink};
pub use next_words::{WordFault, is_word};
pub use numbers::{decimal, hex};
pub use sink::{Sink, SinkFailed};
pub use std_sink::StdSink;
pub use sure_files::SureFiles;
pub use sure_sink::SureSink;
pub use text_fault::{FaultKind, LineStop, TextFault};
pub use text_lines::{TextLines, lines};
