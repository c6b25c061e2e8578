// Tables of names.
ghost use Rattle.std.specs.Prelude.{◌≡◌};
ghost use Rattle.std.specs.Map.{lookup};
ghost use Rattle.std.specs.Str.{bytes_eq};

/// What stands beside a name in a table, if the name stands there.
pub(crate) fn named<T: Copy>(table: &[(&[u8], T)], word: &[u8]) -> Option<T>
    ensures { result ≡ lookup (λ name. bytes_eq name.now word.now) table.now }
{
    for (name, value) in table {
        if *name == word {
            return Some(*value);
        }
    }
    None
}
