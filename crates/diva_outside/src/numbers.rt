// The numbers that words spell.
ghost use Rattle.std.specs.Prelude.{◌≡◌, ◌≤◌, ◌<◌, ◌^◌, length, IfSome};
ghost use Rattle.diva_outside.specs.Numbers.{spelled_number, hex_of, decimal_of};

/// The number that one to eight hex digits of either case spell, `None` exactly where the word is something else.
#[tactic(auto, unfolding(crate::specs::Numbers::hex_of))]
pub fn hex(word: &[u8]) -> Option<u32>
    ensures { result ≡ hex_of word.now }
{
    match number(word, 16, 8) {
        Some(number) => Some(number as u32),
        None => None,
    }
}

/// The number that one to ten decimal digits spell, `None` exactly where the word is something else.
#[tactic(auto, unfolding(crate::specs::Numbers::decimal_of))]
pub fn decimal(word: &[u8]) -> Option<u64>
    ensures { result ≡ decimal_of word.now }
{
    number(word, 10, 10)
}

/// The number that one to `most` digits of a radix spell.
fn number(word: &[u8], radix: u32, most: usize) -> Option<u64>
    requires low { 2 ≤ radix }
    requires high { radix ≤ 16 }
    requires short { most ≤ 10 }
    ensures value { result ≡ spelled_number radix most word.now }
    ensures small { IfSome result (λ n. n < 16 ^ most) }
{
    if word.is_empty() || most < word.len() {
        return None;
    }
    let mut number = 0;
    for byte in word {
        let Some(digit) = char::from(*byte).to_digit(radix) else {
            return None;
        };
        number = number * u64::from(radix) + u64::from(digit);
    }
    Some(number)
}
