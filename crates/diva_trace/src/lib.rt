//! The text that the program writes, line by line, and writers that put whole parts of it to a sink.
//!
//! - `line_of`: a line, by its pieces.
//! - `lines`: one call for each line, which gives the line with its line feed.
//! - `report`: `Report`, what a run's text is made of, `HartReport`, what the lines of one of two harts are made of, `Dump`, a
//!   part of memory that is shown at the end, `SoakCore`, the cores of the two runs of `soak`, and `Tally`, what is counted of
//!   the runs of a campaign.
//! - `writers`: the parts of a run's text, and the whole of it. Each line is one put, and no memory is taken.
//! - `harts`: the lines of one of two harts, put the same way.
//!
//! `specs/` holds the lines (`Lines`), and the parts and the whole of a run's text, and those of two harts, of two runs and of
//! a campaign (`Text`).
#![tactic(auto)]

/// A line of these pieces, from left to right: of each, the call of `Line` that appends it, and what it appends. All have to fit.
#[macro_export]
macro_rules! line_of {
    ($($append:ident $piece:expr),+ $(,)?) => {{
        let mut line = diva_outside::Line::new();
        $(line.$append($piece);)+
        line
    }};
}

mod harts;
mod lines;
mod report;
mod writers;

pub use harts::write_hart;
pub use lines::{
    commit_line, count_line, cycles_line, end_line, end_line_of, flush_line, flushes_line,
    hart_line, mem_line, out_line, output_line, pc_line, push_cause, push_end, push_fields,
    registers_line, soak_line,
};
pub use report::{Dump, HartReport, Report, SoakCore, Tally};
pub use writers::{
    write_commits, write_dump, write_output, write_registers, write_rows, write_run, write_summary,
    write_tally,
};
