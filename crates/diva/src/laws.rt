//! What follows of the program's runs. The function has no body of its own: its clauses are about the definitions.
ghost use Rattle.std.specs.Prelude.{◌≡◌, ℕ, true, Result, IsOk};
ghost use Rattle.diva_outside.specs.Text.{Text};
ghost use Rattle.diva_args.specs.declared.job.RunOptions.{RunOptions};
ghost use Rattle.diva_args.specs.declared.job.SoakOptions.{SoakOptions};
ghost use Rattle.diva_args.specs.declared.job.CoreChoice.TheVariants.{Own};
ghost use Rattle.diva_cli.specs.Changes.{change};
ghost use Rattle.diva_cli.specs.Runs.{HasRun};
ghost use Rattle.diva_cli.specs.SoakTexts.{HasSoaked};
ghost use Rattle.diva_process.specs.declared.status.Status.{Status};
ghost use Rattle.diva_process.specs.Programs.{FileBytes};
ghost use Rattle.diva_ooo.specs.Ooo.{IsOooCall, Ooo, new_ooo};

use diva_cli::laws::own_run_is_determined;
use diva_ooo::Ooo;

/// The text of a run under the program's own core, a new one, is determined by the words and the bytes of the files. Of a run
/// with commit lines that is said where they were all written. The text of `soak` is determined by its words.
pub fn text_is_determined()
    ensures run { (options : RunOptions) (bytes : FileBytes) (after last : Ooo) (ended other : Result Status Text) (text same : Text)
        → options.setup.core ≡ Own
        → HasRun IsOooCall options bytes (change new_ooo after) ended text
        → HasRun IsOooCall options bytes (change new_ooo last) other same
        → (options.trace ≡ true → IsOk ended × IsOk other) → text ≡ same }
    ensures soak { (options : SoakOptions) (after last : Ooo) (ended other : Result Status Text) (text same : Text)
        → HasSoaked IsOooCall options (change new_ooo after) ended text
        → HasSoaked IsOooCall options (change new_ooo last) other same → text ≡ same }
{
    own_run_is_determined::<Ooo>();
}
