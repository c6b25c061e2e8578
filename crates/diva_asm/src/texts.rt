// How a line is cut: blanks, names, and what stands between two bytes.
ghost use Rattle.std.specs.Prelude.{◌≡◌, ◌≤◌, ◌<◌, ◌==◌, length, MatchOption, IfSome};
ghost use Rattle.std.specs.List.{position, position_or_len, before_first, after_first, count_by};
ghost use Rattle.diva_outside.specs.Words.{is_blank, is_letter};
ghost use Rattle.diva_asm.specs.Texts.{trim_start, trim_end, trim, begins_name, continues_name, ends_name, is_name, name_len, ends_mnemonic};

/// What stands before the first such byte, and behind it; all, and nothing, where there is none.
pub(crate) fn cut(text: &[u8], byte: u8) -> (&[u8], &[u8])
    ensures before { result.0.now ≡ before_first (λ b. b == byte) text.now }
    ensures after { result.1.now ≡ after_first (λ b. b == byte) text.now }
{
    match split(text, byte) {
        Some(parts) => parts,
        None => (text, &[]),
    }
}

/// What stands before the first such byte, and behind it; `None` where there is none.
#[tactic(auto, using(crate::proofs::Cutting::before_at, crate::proofs::Cutting::after_at, crate::proofs::Cutting::inside, crate::proofs::Cutting::at_end))]
pub(crate) fn split(text: &[u8], byte: u8) -> Option<(&[u8], &[u8])>
    ensures parts { MatchOption result (position_or_len (λ b. b == byte) text.now ≡ length text.now) (λ p. (p.0.now ≡ before_first (λ b. b == byte) text.now) × (p.1.now ≡ after_first (λ b. b == byte) text.now)) }
    ensures inside { IfSome result (λ p. position_or_len (λ b. b == byte) text.now < length text.now) }
    ensures shorter { IfSome result (λ p. length p.1.now < length text.now) }
{
    match place_of(text, byte) {
        Some(place) => Some((&text[..place], &text[place + 1..])),
        None => None,
    }
}

fn place_of(text: &[u8], byte: u8) -> Option<usize>
    ensures { result ≡ position (λ b. b == byte) text.now }
{
    text.iter().position(|b| *b == byte)
}

/// How many such bytes there are.
pub(crate) fn count_of(text: &[u8], byte: u8) -> usize
    ensures { result ≡ count_by (λ b. b == byte) text.now }
{
    text.iter().filter(|b| **b == byte).count()
}

/// How long the mnemonic is that a text begins with: it ends before a blank or a comma.
#[tactic(auto, using(crate::proofs::Cutting::or_len, crate::proofs::Cutting::within))]
pub(crate) fn mnemonic_len(text: &[u8]) -> usize
    ensures len { result ≡ position_or_len ends_mnemonic text.now }
    ensures within { result ≤ length text.now }
{
    mnemonic_end(text).unwrap_or(text.len())
}

fn mnemonic_end(text: &[u8]) -> Option<usize>
    ensures { result ≡ position ends_mnemonic text.now }
{
    text.iter().position(|b| is_blank(*b) || *b == b',')
}

/// A space, a tab or a carriage return.
fn is_blank(b: u8) -> bool
    ensures { result ≡ is_blank b }
{
    b == b' ' || b == b'\t' || b == b'\r'
}

/// A text without the blanks at its ends.
#[tactic(auto, unfolding(crate::specs::Texts::trim))]
pub(crate) fn trim(text: &[u8]) -> &[u8]
    ensures { result.now ≡ trim text.now }
{
    trim_end(trim_start(text))
}

#[tactic(auto, using(crate::proofs::Cutting::trimmed_at, crate::proofs::Cutting::all_trimmed))]
fn trim_start(text: &[u8]) -> &[u8]
    ensures { result.now ≡ trim_start text.now }
{
    match letter_place(text) {
        Some(place) => &text[place..],
        None => &[],
    }
}

fn letter_place(text: &[u8]) -> Option<usize>
    ensures { result ≡ position is_letter text.now }
{
    text.iter().position(|b| !is_blank(*b))
}

fn trim_end(text: &[u8]) -> &[u8]
    ensures { result.now ≡ trim_end text.now }
{
    let mut end = text.len();
    while 0 < end && is_blank(text[end - 1]) {
        end -= 1;
    }
    &text[..end]
}

/// A letter or `_`.
fn begins_name(b: u8) -> bool
    ensures { result ≡ begins_name b }
{
    b.is_ascii_lowercase() || b.is_ascii_uppercase() || b == b'_'
}

/// A letter, a digit or `_`.
fn continues_name(b: u8) -> bool
    ensures { result ≡ continues_name b }
{
    begins_name(b) || b.is_ascii_digit()
}

/// A letter or `_`, then letters, digits or `_`.
#[tactic(auto, unfolding(crate::specs::Texts::is_name))]
pub(crate) fn is_name(text: &[u8]) -> bool
    ensures { result ≡ is_name text.now }
{
    !text.is_empty() && name_len(text) == text.len()
}

/// How long the name is that a text begins with.
#[tactic(auto, using(crate::proofs::Cutting::or_len, crate::proofs::Cutting::within), unfolding(crate::specs::Texts::name_len))]
pub(crate) fn name_len(text: &[u8]) -> usize
    ensures len { result ≡ name_len text.now }
    ensures within { result ≤ length text.now }
{
    if !text.is_empty() && begins_name(text[0]) {
        name_end(text).unwrap_or(text.len())
    } else {
        0
    }
}

fn name_end(text: &[u8]) -> Option<usize>
    ensures { result ≡ position ends_name text.now }
{
    text.iter().position(|b| !continues_name(*b))
}
