// Which effects change memory.
ghost use Rattle.std.specs.Prelude.{◌≡◌};
ghost use Rattle.diva_core.specs.Cycle.{is_store};

use diva_isa::Effect;

/// Whether an effect is a store.
pub fn is_store(effect: &Effect) -> bool
    ensures { result ≡ is_store effect.now }
{
    matches!(effect, Effect::Stores { .. })
}
