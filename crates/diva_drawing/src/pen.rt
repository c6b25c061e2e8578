// What draws a run, cycle by cycle.
ghost use Rattle.std.specs.Prelude.{◌≡◌, ◌≤◌, ◌<◌, ◌+◌, ◌++◌, ◌^◌};
ghost use Rattle.diva_outside.specs.Lent.{lent};
ghost use Rattle.diva_outside.specs.Sink.{PutsTo};
ghost use Rattle.diva_drawing.specs.Drawing.{drawn_cycle, drawn_end};
ghost use Rattle.diva_drawing.specs.Log.{ended_text, log_cycle, open_text};
ghost use Rattle.diva_drawing.specs.Rows.{begun_rows};
ghost use Rattle.diva_drawing.specs.Snapshot.{IsSnapshot};

use crate::block::Block;
use crate::drawing::{put_drawn, put_stopped};
use crate::excerpt::Excerpt;
use crate::log::{put_ended, put_open};
use crate::rows::{begun_rows, open_rows};
use crate::snapshot::Snapshot;
use diva_core::Claims;
use diva_machine::Machine;
use diva_outside::{Sink, SinkFailed};
use std::marker::Model;

/// What draws a run: it is shown the machine behind each cycle, and keeps what it saw of it last. It takes no memory.
#[derive(Drop)]
pub struct Pen {
    /// How many rows have begun.
    rows: u64,
    /// What was seen of the machine last.
    seen: Snapshot,
    /// Lines on their way to the sink.
    block: Block,
}

impl Model for Pen {
    ghost use Rattle.diva_drawing.specs.Rows.{Pen};

    ghost Value = { Pen };

    ghost view = { λ p. record { rows = p.rows; seen = p.seen } };
}

impl Pen {
    /// A pen that has drawn nothing yet, and sees a machine before its first cycle.
    pub fn new(m: &Machine) -> Pen
        ensures rows { result.rows ≡ 0 }
        ensures seen { IsSnapshot m.now.timed result.seen }
    {
        Pen {
            rows: 0,
            seen: Snapshot::of(m),
            block: Block::new(),
        }
    }

    /// Puts the lines of the log for a cycle, in which the machine was handed this list; it is shown as the cycle has left it. Where
    /// a put fails, a prefix of the lines was appended. Fewer than 2^62 rows may have begun before.
    pub fn log_cycle<S: Sink>(
        &mut self,
        m: &Machine,
        handed: &Claims,
        sink: &mut S,
    ) -> Result<(), SinkFailed>
        requires rows { self.old.rows < 2 ^ 62 }
        requires count { m.now.timed.count ≤ 2 ^ 62 }
        ensures seen { IsSnapshot m.now.timed self.new.seen }
        ensures rows { self.new.rows ≡ self.old.rows + begun_rows self.old.seen self.new.seen }
        ensures few { self.new.rows ≤ self.old.rows + 65 }
        ensures put { PutsTo (lent S.account sink.old sink.new)
            (log_cycle self.old.rows self.old.seen self.new.seen handed.now) result }
    {
        let after = Snapshot::of(m);
        let rows = self.rows + begun_rows(&self.seen, &after);
        let oldest = rows.saturating_sub(open_rows(&after));
        let first = self.rows.saturating_sub(open_rows(&self.seen));
        let put = put_logged(
            &mut self.block,
            (oldest, first),
            &self.seen,
            &after,
            handed,
            sink,
        );
        self.rows = rows;
        self.seen = after;
        put
    }

    /// Puts the rows of the drawing that end in a cycle and have a cell in the excerpt; the machine is shown as the cycle has left
    /// it. Where a put fails, a prefix of them was appended. Fewer than 2^62 rows may have begun before.
    pub fn draw_cycle<S: Sink>(
        &mut self,
        m: &Machine,
        excerpt: Excerpt,
        sink: &mut S,
    ) -> Result<(), SinkFailed>
        requires rows { self.old.rows < 2 ^ 62 }
        ensures seen { IsSnapshot m.now.timed self.new.seen }
        ensures rows { self.new.rows ≡ self.old.rows + begun_rows self.old.seen self.new.seen }
        ensures few { self.new.rows ≤ self.old.rows + 65 }
        ensures put { PutsTo (lent S.account sink.old sink.new) (drawn_cycle excerpt self.old.seen self.new.seen) result }
    {
        let after = Snapshot::of(m);
        let put = put_drawn(&self.seen, &after, excerpt, &mut self.block, sink);
        self.rows += begun_rows(&self.seen, &after);
        self.seen = after;
        put
    }

    /// Puts the rows of the drawing that are open at last and have a cell in the excerpt, and the scale below them. Where a put
    /// fails, a prefix of them was appended.
    pub fn end_drawing<S: Sink>(&mut self, excerpt: Excerpt, sink: &mut S) -> Result<(), SinkFailed>
        ensures { PutsTo (lent S.account sink.old sink.new) (drawn_end excerpt self.old.seen) result }
    {
        put_stopped(&self.seen, excerpt, &mut self.block, sink)
    }
}

/// Puts the lines of what is open after a cycle, and then those of the rows that ended in it. Of both the number of the oldest is
/// given. Where a put fails, a prefix of them was appended.
fn put_logged<S: Sink>(
    block: &mut Block,
    oldest: (u64, u64),
    before: &Snapshot,
    after: &Snapshot,
    handed: &Claims,
    sink: &mut S,
) -> Result<(), SinkFailed>
    requires open { oldest.0 < 2 ^ 63 }
    requires ended { oldest.1 < 2 ^ 62 }
    requires count { after.now.count ≤ 2 ^ 62 }
    ensures { PutsTo (lent S.account sink.old sink.new)
        (open_text oldest.0 before.now after.now handed.now ++ ended_text oldest.1 before.now after.now) result }
{
    put_open(block, oldest.0, before, after, handed, sink)?;
    put_ended(oldest.1, before, after, sink)
}
