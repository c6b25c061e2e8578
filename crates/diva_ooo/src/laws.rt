//! What follows of the core's calls. Each function has no body: its clause is about the definitions.
ghost use Rattle.std.specs.Prelude.{◌≤◌, List, length};
ghost use Rattle.diva_isa.specs.State.{State};
ghost use Rattle.diva_isa.specs.declared.record.Record.{Record};
ghost use Rattle.diva_core.specs.Told.{Told};
ghost use Rattle.diva_ooo.specs.Ooo.{IsOooCall, Ooo};

/// No call hands over more claims than there is room for.
pub fn no_more_than_room()
    ensures { (before after : Ooo) (told : Told) (s : State) (list : List Record)
        → IsOooCall before told s list after → length list ≤ told.room }
{}
