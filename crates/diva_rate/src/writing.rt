// The text of rates, put to a sink.
ghost use Rattle.std.specs.Prelude.{◌≡◌, ◌≤◌, length, map};
ghost use Rattle.std.specs.List.{concat};
ghost use Rattle.diva_outside.specs.Lent.{lent};
ghost use Rattle.diva_outside.specs.Sink.{PutsTo};
ghost use Rattle.diva_rate.specs.Injections.{Injections};
ghost use Rattle.diva_rate.specs.Lines.{latency_line};
ghost use Rattle.diva_rate.specs.Rates.{rates_of};
ghost use Rattle.diva_rate.specs.Text.{head_text, latency_head, rates_text, shares_text, text_in};

use crate::counts::What;
use crate::injection::OpenEnding;
use crate::lines::{latency_end, latency_start, number_line, share_line};
use crate::rates::{GroupRates, Rates};
use diva_outside::{Line, Sink, SinkFailed, put_line, put_lines};

/// The columns of shares.
const SHARE_HEAD: &[u8] = b"of,name,what,count,faults,share,low,high\n";

/// The columns of latencies.
const LATENCY_HEAD: &[u8] = b"of,name,found,latency50,latency90,latency99,latency_most,extra\n";

/// Puts the whole text of some rates. Where a put fails, a prefix of it was appended.
pub fn write_rates<S: Sink>(rates: &Rates, sink: &mut S) -> Result<(), SinkFailed>
    ensures text { PutsTo (lent S.account sink.old sink.new) (text_in rates.now) result }
    ensures lines { (kept : Injections) → rates.now ≡ rates_of kept → PutsTo (lent S.account sink.old sink.new) (rates_text kept) result }
{
    write_parts(rates, sink)
}

/// The same, part by part.
fn write_parts<S: Sink>(rates: &Rates, sink: &mut S) -> Result<(), SinkFailed>
    ensures { PutsTo (lent S.account sink.old sink.new) (text_in rates.now) result }
{
    write_head(rates, sink)?;
    write_shares(rates.groups(), sink)?;
    write_latency_head(sink)?;
    write_latencies(rates.groups(), sink)
}

/// The lines before the shares.
#[tactic(auto, unfolding(crate::specs::Text::head_text))]
fn write_head<S: Sink>(rates: &Rates, sink: &mut S) -> Result<(), SinkFailed>
    ensures { PutsTo (lent S.account sink.old sink.new) (head_text rates.now) result }
{
    put_lines(
        &[
            number_line(b"faults ", u64::from(rates.faults())),
            number_line(b"twice ", u64::from(rates.twice())),
            number_line(b"missing ", rates.missing()),
            text_line(SHARE_HEAD),
        ],
        sink,
    )
}

/// A line of this text.
fn text_line(text: &[u8]) -> Line
    requires { length text.now ≤ 128 }
    ensures { result ≡ text.now }
{
    let mut line = Line::new();
    line.text(text);
    line
}

/// The line before the latencies.
fn write_latency_head<S: Sink>(sink: &mut S) -> Result<(), SinkFailed>
    ensures { PutsTo (lent S.account sink.old sink.new) latency_head result }
{
    sink.put(LATENCY_HEAD)
}

/// The shares of each group.
fn write_shares<S: Sink>(groups: &[GroupRates], sink: &mut S) -> Result<(), SinkFailed>
    ensures { PutsTo (lent S.account sink.old sink.new) (concat (map shares_text groups.now)) result }
{
    for rates in groups {
        write_group(rates, sink)?;
    }
    Ok(())
}

/// The shares of a group.
#[tactic(auto, unfolding(crate::specs::Text::shares_text))]
fn write_group<S: Sink>(rates: &GroupRates, sink: &mut S) -> Result<(), SinkFailed>
    ensures { PutsTo (lent S.account sink.old sink.new) (shares_text rates.now) result }
{
    put_lines(
        &[
            share_line(rates, What::Hit, &rates.hit),
            share_line(rates, What::Found, &rates.found),
            share_line(rates, What::Same, &rates.same),
            share_line(rates, What::Ended(OpenEnding::Masked), &rates.masked),
            share_line(rates, What::Ended(OpenEnding::Silent), &rates.silent),
            share_line(rates, What::Ended(OpenEnding::Trap), &rates.trap),
            share_line(rates, What::Ended(OpenEnding::Hang), &rates.hang),
            share_line(rates, What::Ended(OpenEnding::Stray), &rates.stray),
        ],
        sink,
    )
}

/// The latencies of each group.
fn write_latencies<S: Sink>(groups: &[GroupRates], sink: &mut S) -> Result<(), SinkFailed>
    ensures { PutsTo (lent S.account sink.old sink.new) (concat (map latency_line groups.now)) result }
{
    for rates in groups {
        write_latency(rates, sink)?;
    }
    Ok(())
}

/// The latencies of a group.
fn write_latency<S: Sink>(rates: &GroupRates, sink: &mut S) -> Result<(), SinkFailed>
    ensures { PutsTo (lent S.account sink.old sink.new) (latency_line rates.now) result }
{
    put_line(&latency_start(rates), sink)?;
    put_line(&latency_end(rates), sink)
}
