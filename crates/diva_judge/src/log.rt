// A log, judged by a machine.
ghost use Rattle.std.specs.Prelude.{◌≡◌, ◌<◌, ◌^◌};
ghost use Rattle.diva_core.specs.Timed.{new_timed};
ghost use Rattle.diva_outside.specs.Lent.{lent};
ghost use Rattle.diva_outside.specs.Sink.{PutsTo};
ghost use Rattle.diva_source.specs.SourceLines.{lent_name, lines_account};
ghost use Rattle.diva_judge.specs.Inner.{IsKept, judged_by};
ghost use Rattle.diva_judge.specs.Judgement.{is_enough, judges, left_over, verdict_of, with_said};
ghost use Rattle.diva_judge.specs.Judging.{IsJudging};
ghost use Rattle.diva_judge.specs.Texts.{last_text, missing_text, said_text, text_of_left};

use crate::judging::judge_line;
use crate::log_line::read_said;
use crate::rows::{
    judged_line, left_line, put_judged, put_late, put_missing, put_unreadable, refused_line,
};
use crate::{Terms, Verdict};
use diva_claims::Said;
use diva_isa::{End, record_of};
use diva_machine::Machine;
use diva_outside::{Sink, SinkFailed, put_line};
use diva_source::{FewWords, Source, SourceLines};
use diva_trace::end_line_of;

/// No more lines than these are judged.
const MOST_LINES: u64 = 1 << 48;

/// Has a new machine judge a log, line by line, and puts what comes of it as it goes. The source has the log open, and begins with its
/// first line. If a put fails, no further line is read, and a prefix of what is due was appended.
///
/// The n-th line with words says what was done in the n-th instruction of the machine's program, both from 0 on. A line that is wrong
/// counts as a flush of the machine, which goes on with the instruction that is due.
pub fn judge<D: Source, S: Sink>(
    m: &mut Machine,
    source: &mut D,
    terms: Terms,
    sink: &mut S,
) -> Result<Verdict, SinkFailed>
    requires new { m.old.timed ≡ new_timed m.old.timed.config m.old.timed.arch }
    requires bounded { (D.account source.old).limit < 2 ^ 64 }
    ensures { IsJudging terms m.old.timed.arch (lent D.account source.old source.new) (lent S.account sink.old sink.new) m.new.timed result }
{
    recall_rest(m);
    let mut log = SourceLines::new(source);
    judge_lines(m, &mut log, terms, sink)
}

/// That a new machine is at rest.
#[tactic(auto, using(crate::proofs::SoFar::new_kept))]
fn recall_rest(m: &Machine)
    requires { m.now.timed ≡ new_timed m.now.timed.config m.now.timed.arch }
    ensures { IsKept m.now.timed }
{
    let _goes_on = m.goes_on();
}

/// The same, of the lines of a log.
fn judge_lines<D: Source, S: Sink>(
    m: &mut Machine,
    log: &mut SourceLines<'_, D>,
    terms: Terms,
    sink: &mut S,
) -> Result<Verdict, SinkFailed>
    requires new { m.old.timed ≡ new_timed m.old.timed.config m.old.timed.arch }
    requires kept { IsKept m.old.timed }
    requires bounded { (lines_account D.account log.old).limit < 2 ^ 64 }
    ensures judging { IsJudging terms m.old.timed.arch (lent (lines_account D.account) log.old log.new) (lent S.account sink.old sink.new) m.new.timed result }
    ensures same_source { lent_name log.new ≡ lent_name log.old }
{
    let mut words = FewWords::new();
    let mut number = 0;
    let mut count = 0;
    loop {
        match log.next(&mut words) {
            Ok(true) => number += 1,
            Ok(false) => {
                put_last(m, terms, count, sink)?;
                return Ok(verdict(m, count));
            }
            Err(_) => {
                put_unreadable(sink)?;
                return Ok(Verdict::Unread);
            }
        }
        match read_said(&words) {
            Ok(Some(said)) => {
                count += 1;
                judge_said(m, terms, said, sink)?;
            }
            Ok(None) => {}
            Err(kind) => {
                put_line(&refused_line(number, kind), sink)?;
                return Ok(Verdict::Refused);
            }
        }
    }
}

/// Judges one line more, if one is still to be judged, and puts what is written of it.
fn judge_said<S: Sink>(
    m: &mut Machine,
    terms: Terms,
    said: Said,
    sink: &mut S,
) -> Result<(), SinkFailed>
    requires kept { IsKept m.old.timed }
    ensures kept { IsKept m.new.timed }
    ensures judged { judged_by m.new.timed ≡ with_said terms.stop said (judged_by m.old.timed) }
    ensures puts { PutsTo (lent S.account sink.old sink.new) (said_text terms said (judged_by m.old.timed)) result }
{
    if !judges(m, terms.stop) {
        return put_late(terms.answers, sink);
    }
    let place = m.count();
    let wrong = judge_line(m, said);
    put_judged(terms.answers, place, &m.last()[0], wrong, sink)
}

/// Whether one line more is judged.
fn judges(m: &Machine, stop: Option<u32>) -> bool
    ensures { result ≡ judges stop (judged_by m.now.timed) }
{
    m.goes_on() && !is_enough(stop, m.flushes()) && m.count() < MOST_LINES
}

/// Whether so many lines are wrong that no further one is to be judged.
fn is_enough(stop: Option<u32>, wrong: u64) -> bool
    ensures { result ≡ is_enough stop wrong }
{
    match stop {
        None => false,
        Some(stop) => wrong >= u64::from(stop),
    }
}

/// Puts what is written after the last of so many lines. If a put fails, a prefix of it was appended.
fn put_last<S: Sink>(m: &Machine, terms: Terms, count: u64, sink: &mut S) -> Result<(), SinkFailed>
    ensures { PutsTo (lent S.account sink.old sink.new) (last_text terms count (judged_by m.now.timed)) result }
{
    put_first_missing(m, terms, sink)?;
    put_left(left_over(m, count), sink)?;
    put_line(&end_line_of(m.ended()), sink)?;
    put_line(&judged_line(m.count(), count, m.flushes()), sink)
}

/// Puts the row of the first instruction that has no line, if one more line would be judged.
fn put_first_missing<S: Sink>(m: &Machine, terms: Terms, sink: &mut S) -> Result<(), SinkFailed>
    ensures { PutsTo (lent S.account sink.old sink.new) (missing_text terms (judged_by m.now.timed)) result }
{
    if judges(m, terms.stop) {
        put_missing(m.count(), &record_of(&m.view()), sink)
    } else {
        Ok(())
    }
}

/// Puts how many lines are left over, if any are.
fn put_left<S: Sink>(left: u64, sink: &mut S) -> Result<(), SinkFailed>
    ensures { PutsTo (lent S.account sink.old sink.new) (text_of_left left) result }
{
    if left > 0 {
        put_line(&left_line(left), sink)
    } else {
        Ok(())
    }
}

/// How many of so many lines are left over after the program's end.
fn left_over(m: &Machine, count: u64) -> u64
    ensures { result ≡ left_over count (judged_by m.now.timed) }
{
    if m.goes_on() {
        0
    } else {
        count.saturating_sub(m.count())
    }
}

/// The verdict on so many lines.
fn verdict(m: &Machine, count: u64) -> Verdict
    ensures { result ≡ verdict_of count (judged_by m.now.timed) }
{
    if m.flushes() > 0 || left_over(m, count) > 0 {
        return Verdict::Wrong;
    }
    match m.ended() {
        End::GoesOn => Verdict::Short,
        End::Halt(_) => Verdict::Halted,
        End::Trap(_) => Verdict::Trapped,
    }
}
