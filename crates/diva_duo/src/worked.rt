//! A run of two harts that was worked out by hand. The function has no body: its clauses are about the definitions, and computing
//! with them gives the worked values. So the definitions mean what was meant.
ghost use Rattle.std.specs.Prelude.{◌≡◌, [], ◌∷◌, true, false};
ghost use Rattle.diva_isa.specs.End.{halt};
ghost use Rattle.diva_duo.specs.Duo.{is_over};
ghost use Rattle.diva_duo.specs.Programs.{store_load, by_twos, last_by_twos, summary_of};
ghost use Rattle.diva_duo.specs.declared.action.Action.TheVariants.{Go, Drain};

/// Each hart stores in its word and loads the other's: in cycle 9 both stores commit, and both loads while they wait. In cycle 10
/// both go to memory and both harts halt. So neither has seen the other's store.
pub fn neither_hart_sees_the_other_store()
    ensures ninth { last_by_twos 9 store_load ≡ Go 0 ∷ Go 0 ∷ Go 1 ∷ Go 1 ∷ [] }
    ensures tenth { last_by_twos 10 store_load ≡ Drain 0 ∷ Drain 1 ∷ Go 0 ∷ Go 0 ∷ Go 1 ∷ Go 1 ∷ [] }
    ensures summary { summary_of (by_twos 10 store_load)
        ≡ record { cycles = 10; counts = 8 ∷ 8 ∷ []; ends = halt 0 ∷ halt 1 ∷ []; x2 = 0 ∷ 0 ∷ [] } }
    ensures over { is_over (by_twos 10 store_load) ≡ true }
    ensures before { is_over (by_twos 9 store_load) ≡ false }
{}
