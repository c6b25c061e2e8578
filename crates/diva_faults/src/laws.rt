// What holds of every script and every row, by the definitions alone.
ghost use Rattle.std.specs.Prelude.{◌≡◌, ◌↔◌, ◌<◌, ◌≤◌, ℕ, true, List, [], ◌∷◌, ◌++◌};
ghost use Rattle.diva_core.specs.Told.{Told};
ghost use Rattle.diva_isa.specs.State.{State};
ghost use Rattle.diva_isa.specs.declared.record.Record.{Record};
ghost use Rattle.diva_faults.specs.declared.rows.Row.{Row};
ghost use Rattle.diva_faults.specs.declared.rows.Row.TheVariants.{Hush};
ghost use Rattle.diva_faults.specs.Lists.{laid_in, scripted};
ghost use Rattle.diva_faults.specs.Rows.{row_cycle};
ghost use Rattle.diva_faults.specs.Spoiled.{spoiled};
ghost use Rattle.diva_faults.specs.Touched.{end_of, touches};

use diva_core::Core;

/// A script that has no rows changes no list, so a core under it means what the core means by itself.
pub fn no_rows_change_nothing<C: Core>()
    ensures lists { (now : ℕ) (list : List Record) → scripted [] now list ≡ list }
    ensures cores { (before : C) (told : Told) (s : State) (list : List Record) (after : C)
        → spoiled [] C.gives before told s list after ↔ C.gives before told s list after }
{}

/// What rows and one row more, of any kind, make of a list in a cycle is what the one makes in that cycle of what the others make of it.
#[tactic(auto, using(crate::proofs::Laying::one_more))]
pub fn a_row_more_is_laid_last()
    ensures { (rows : List Row) (row : Row) (now : ℕ) (list : List Record)
        → scripted (rows ++ row ∷ []) now list ≡ laid_in now (scripted rows now list) row }
{}

/// In a cycle before the first that a row touches, or after the last, the row leaves each list as it is.
pub fn a_row_changes_nothing_elsewhere()
    ensures before { (row : Row) (now : ℕ) (list : List Record) → now < row_cycle row → laid_in now list row ≡ list }
    ensures after { (row : Row) (now : ℕ) (list : List Record) → end_of row ≤ now → laid_in now list row ≡ list }
{}

/// A hush leaves no claim in the cycles that it touches, whatever rows stand before and after it.
#[tactic(auto, using(crate::proofs::Laying::hush_among))]
pub fn a_hush_leaves_no_claim()
    ensures { (rows more : List Row) (cycle cycles now : ℕ) (list : List Record) → touches (Hush cycle cycles) now ≡ true
        → scripted (rows ++ Hush cycle cycles ∷ more) now list ≡ [] }
{}
