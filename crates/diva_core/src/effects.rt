// Which bytes of memory an effect changes.
ghost use Rattle.std.specs.Prelude.{◌≡◌};
ghost use Rattle.diva_core.specs.Effects.{byte_in, is_apart};

use diva_isa::Effect;

/// The byte that an effect stores at an address, `None` where it stores none there.
pub fn byte_in(effect: &Effect, addr: u32) -> Option<u8>
    ensures { result ≡ byte_in effect.now addr }
{
    match *effect {
        Effect::Stores {
            width,
            addr: from,
            value,
        } => {
            let at = addr.checked_sub(from)?;
            let bytes = value.to_le_bytes();
            bytes[..width.size() as usize].get(at as usize).copied()
        }
        _ => None,
    }
}

/// Whether an effect stores none of the `n` bytes from an address on.
pub fn is_apart(effect: &Effect, addr: u32, n: u32) -> bool
    ensures { result ≡ is_apart effect.now addr n }
{
    match *effect {
        Effect::Stores {
            width,
            addr: from,
            ..
        } => {
            u64::from(from) + u64::from(width.size()) <= u64::from(addr)
                || u64::from(addr) + u64::from(n) <= u64::from(from)
        }
        _ => true,
    }
}
