// The lines of rates, each with its line feed.
ghost use Rattle.std.specs.Prelude.{◌≡◌, ◌+◌, ◌≤◌, ◌∷◌, [], ◌++◌, length, codes};
ghost use Rattle.std.specs.Fmt.{decimal};
ghost use Rattle.diva_rate.specs.Groups.{group_name};
ghost use Rattle.diva_rate.specs.Lines.{digit, extra_text, group_text, latency_end, latency_start, number_line, number_text, share_line, share_text};

use crate::counts::What;
use crate::extra::Extra;
use crate::group::Group;
use crate::rates::GroupRates;
use crate::shares::Share;
use diva_outside::Line;

/// A number behind its name.
pub(crate) fn number_line(name: &[u8], n: u64) -> Line
    requires { length name.now ≤ 20 }
    ensures { result ≡ number_line name.now n }
{
    let mut line = Line::new();
    line.text(name);
    line.decimal(n);
    line.text(b"\n");
    line
}

/// How many faults of a group are such, with their share and its interval.
#[tactic(auto, unfolding(crate::specs::Lines::share_line))]
pub(crate) fn share_line(rates: &GroupRates, what: What, share: &Share) -> Line
    ensures { result ≡ share_line rates.now what share.now }
{
    let mut line = Line::new();
    push_group(&mut line, rates.group);
    line.text(what.name());
    line.text(b",");
    line.decimal(u64::from(share.count));
    line.text(b",");
    line.decimal(u64::from(rates.faults));
    line.text(b",");
    push_share(&mut line, share.share);
    line.text(b",");
    push_share(&mut line, u64::from(share.low));
    line.text(b",");
    push_share(&mut line, u64::from(share.high));
    line.text(b"\n");
    line
}

/// How many faults of a group were found, and the latency that half of them have at most.
#[tactic(auto, unfolding(crate::specs::Lines::latency_start))]
pub(crate) fn latency_start(rates: &GroupRates) -> Line
    ensures { result ≡ latency_start rates.now }
{
    let mut line = Line::new();
    push_group(&mut line, rates.group);
    line.decimal(u64::from(rates.found.count));
    line.text(b",");
    push_number(&mut line, rates.latencies.half);
    line.text(b",");
    line
}

/// The other latencies, and the cycles that a fault costs.
#[tactic(auto, unfolding(crate::specs::Lines::latency_end))]
pub(crate) fn latency_end(rates: &GroupRates) -> Line
    ensures { result ≡ latency_end rates.now }
{
    let mut line = Line::new();
    push_number(&mut line, rates.latencies.ninety);
    line.text(b",");
    push_number(&mut line, rates.latencies.ninety_nine);
    line.text(b",");
    push_number(&mut line, rates.latencies.most);
    line.text(b",");
    push_extra(&mut line, rates.extra);
    line.text(b"\n");
    line
}

/// Appends what a group is, and a comma behind each.
fn push_group(line: &mut Line, group: Group)
    requires { length line.old + 27 ≤ 128 }
    ensures bytes { line.new ≡ line.old ++ group_text group }
    ensures len { length line.new ≤ length line.old + 27 }
{
    line.text(group.kind());
    line.text(b",");
    push_name(line, group);
    line.text(b",");
}

/// Appends the name of a group among those of its kind.
fn push_name(line: &mut Line, group: Group)
    requires { length line.old + 20 ≤ 128 }
    ensures bytes { line.new ≡ line.old ++ group_name group }
    ensures len { length line.new ≤ length line.old + 20 }
{
    match group {
        Group::All => {}
        Group::InModel(model) => line.text(model.name()),
        Group::InField(field) => line.text(field.name()),
        Group::InBit(bit) => line.decimal(u64::from(bit)),
    }
}

/// Appends a number, if there is one.
fn push_number(line: &mut Line, number: Option<u64>)
    requires { length line.old + 20 ≤ 128 }
    ensures bytes { line.new ≡ line.old ++ number_text number }
    ensures len { length line.new ≤ length line.old + 20 }
{
    if let Some(number) = number {
        line.decimal(number);
    }
}

/// Appends a share of ten-thousandths.
fn push_share(line: &mut Line, share: u64)
    requires { length line.old + 6 ≤ 128 }
    ensures bytes { line.new ≡ line.old ++ share_text share }
    ensures len { length line.new ≡ length line.old + 6 }
{
    line.text(&[
        digit(share / 10_000),
        b'.',
        digit(share / 1000),
        digit(share / 100),
        digit(share / 10),
        digit(share),
    ]);
}

/// Appends the cycles that a fault costs, if they are known.
fn push_extra(line: &mut Line, extra: Option<Extra>)
    requires { length line.old + 24 ≤ 128 }
    ensures bytes { line.new ≡ line.old ++ extra_text extra }
    ensures len { length line.new ≤ length line.old + 24 }
{
    if let Some(extra) = extra {
        if extra.is_negative {
            line.text(b"-");
        }
        line.decimal(extra.whole);
        let hundredths = u64::from(extra.hundredths);
        line.text(&[b'.', digit(hundredths / 10), digit(hundredths)]);
    }
}

/// The last digit of a number.
fn digit(n: u64) -> u8
    ensures { result ≡ digit n }
{
    b'0' + (n % 10) as u8
}
