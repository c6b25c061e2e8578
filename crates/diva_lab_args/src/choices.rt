// Lists of names with commas between them.
ghost use Rattle.std.specs.Prelude.{◌≡◌, ◌≤◌};
ghost use Rattle.diva_lab_args.specs.Choices.{choice_of};
ghost use Rattle.diva_lab_args.specs.Inner.{items_in, with_name};

use diva_core::Field;
use diva_inject::{Choice, FaultModel};
use diva_outside::is_word;

/// What a name in a list can stand for.
pub(crate) trait Named: Copy {
    ghost use Rattle.std.specs.Prelude.{Option};
    ghost use Rattle.clap.specs.Walk.{Text};

    /// The item of a name.
    ghost named: { Text → Option Self };

    /// The item of this name, if there is one.
    fn named(name: &str) -> Option<Self>
        ensures { result ≡ named name.now };
}

impl Named for FaultModel {
    ghost use Rattle.diva_lab_args.specs.Choices.{model_named};

    ghost named = { model_named };

    fn named(name: &str) -> Option<FaultModel> {
        FaultModel::ALL
            .iter()
            .copied()
            .find(|model| is_word(name.as_bytes(), model.name()))
    }
}

impl Named for Field {
    ghost use Rattle.diva_lab_args.specs.Choices.{field_named};

    ghost named = { field_named };

    fn named(name: &str) -> Option<Field> {
        Field::ALL
            .iter()
            .copied()
            .find(|field| is_word(name.as_bytes(), field.name()))
    }
}

/// The items of the names in a word, which has commas between them; `None` if a name has no item, or there are more names than `MOST`.
#[tactic(auto, unfolding(crate::specs::Choices::choice_of))]
pub(crate) fn choice<T: Named, const MOST: usize>(word: &str) -> Option<Choice<T, MOST>>
    requires { 1 ≤ MOST }
    ensures { result ≡ choice_of T.named MOST word.now }
{
    let mut choice = None;
    let mut rest = word;
    while let Some((name, more)) = rest.split_once(',') {
        choice = Some(with_name(choice, name)?);
        rest = more;
    }
    with_name(choice, rest)
}

/// The items with that of one more name; `None` if no item has this name, or there is no room for it.
fn with_name<T: Named, const MOST: usize>(
    choice: Option<Choice<T, MOST>>,
    name: &str,
) -> Option<Choice<T, MOST>>
    requires { 1 ≤ MOST }
    ensures { result ≡ with_name T.named MOST (items_in choice) name.now }
{
    let item = T::named(name)?;
    let Some(mut choice) = choice else {
        return Some(Choice::of(item));
    };
    if choice.len() == MOST {
        return None;
    }
    choice.push(item);
    Some(choice)
}
