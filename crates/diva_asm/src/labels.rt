// Where labels stand.
ghost use Rattle.std.specs.Prelude.{◌≡◌, ◌==◌, [], length, OnOk};
ghost use Rattle.diva_asm.specs.Labels.{address_of, with_address};

use std::alloc::{AllocError, Global};
use std::collections::BTreeMap;
use std::marker::Model;

/// The addresses of labels, by their names. Contracts see the list of them, in the order of the names.
#[derive(Drop)]
pub(crate) struct Labels<'a> {
    addresses: BTreeMap<&'a [u8], u32>,
}

impl<'a> Model for Labels<'a> {
    ghost use Rattle.std.specs.Prelude.{List, ℕ, map};

    ghost Value = { List (List ℕ × ℕ) };

    ghost view = { λ labels. map (λ label. (label.0.now, label.1)) labels.addresses.entries };
}

impl<'a> Labels<'a> {
    pub fn new(alloc: Global) -> Self
        ensures { result ≡ [] }
    {
        Labels {
            addresses: BTreeMap::new(alloc),
        }
    }

    pub fn is_empty(&self) -> bool
        ensures { result ≡ (length self.now == 0) }
    {
        self.addresses.is_empty()
    }

    pub fn get(&self, name: &[u8]) -> Option<u32>
        ensures { result ≡ address_of self.now name.now }
    {
        self.addresses.get(name).copied()
    }

    pub fn insert(&mut self, name: &'a [u8], address: u32) -> Result<(), AllocError>
        ensures { OnOk result (self.new ≡ with_address self.old name.now address) }
    {
        self.addresses.insert(name, address)?;
        Ok(())
    }
}
