// The line that answers words which are not a valid command line.
ghost use Rattle.std.specs.Prelude.{◌≡◌};
ghost use Rattle.diva_cli.specs.Lines.{usage_line};

use diva_outside::Line;

/// The line for words that are not a valid command line.
#[tactic(auto, unfolding(crate::specs::Lines::usage_line))]
pub(crate) fn usage_line() -> Line
    ensures { result ≡ usage_line }
{
    let mut line = Line::new();
    line.text(
        b"usage: diva run|tape|duo IMAGE, debug IMAGE COMMANDS, asm SRC, dis|migrate IMAGE, soak SEED LENGTH, campaign IMAGE LAST\n",
    );
    line
}
