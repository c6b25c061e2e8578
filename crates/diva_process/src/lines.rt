// The lines that say why a file can't be used.
ghost use Rattle.std.specs.Prelude.{◌≡◌, ◌≤◌, length};
ghost use Rattle.diva_process.specs.Lines.{word_for, unreadable_line, refused_line};

use diva_outside::{Line, What};

/// `unreadable WHAT`
#[tactic(auto, unfolding(crate::specs::Lines::unreadable_line))]
pub(crate) fn unreadable_line(what: What) -> Line
    ensures { result ≡ unreadable_line what }
{
    let mut line = Line::new();
    line.text(b"unreadable ");
    line.text(word_for(what));
    line.text(b"\n");
    line
}

/// `refused WHAT KIND at PLACE`
#[tactic(auto, unfolding(crate::specs::Lines::refused_line))]
pub(crate) fn refused_line(what: What, kind: u8, place: u64) -> Line
    ensures { result ≡ refused_line what kind place }
{
    let mut line = Line::new();
    line.text(b"refused ");
    line.text(word_for(what));
    line.text(b" ");
    line.decimal(u64::from(kind));
    line.text(b" at ");
    line.decimal(place);
    line.text(b"\n");
    line
}

/// What a file is for, in a word.
fn word_for(what: What) -> &'static [u8]
    ensures word { result.now ≡ word_for what }
    ensures short { length result.now ≤ 8 }
{
    match what {
        What::Image => b"image",
        What::Script => b"script",
        What::Tape => b"tape",
        What::Source => b"source",
        What::Commands => b"commands",
    }
}
