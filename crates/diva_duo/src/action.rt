// What a cycle does to two harts, as the store-buffer machine has it.
ghost use Rattle.std.specs.Prelude.{◌≡◌};
ghost use Rattle.diva_duo.specs.declared.action.Action.TheVariants.{Go};

/// An action of one of two harts, by its number: 0 or 1.
#[derive(Clone, Copy, Debug, PartialEq, Eq)]
pub enum Action {
    /// The hart goes on by one instruction.
    Go(u8),
    /// The oldest store of the hart's buffer goes to memory.
    Drain(u8),
}

impl Default for Action {
    ghost is_default = { λ action. action ≡ Go 0 };

    fn default() -> Self {
        Action::Go(0)
    }
}
