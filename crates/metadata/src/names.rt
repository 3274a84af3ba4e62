//! Names that are taken, with an answer to whether one is free without a walk over them.

ghost use Rattle.std.specs.Prelude.{◌≡◌, ◌||◌, not, false, List, ℕ, IfOk, OnOk};
ghost use Rattle.std.specs.Str.{bytes_eq};
ghost use Rattle.metadata.specs.Names.{is_taken};

use rtr_bytes::NoMemory;
use std::alloc::Global;
use std::collections::BTreeSet;
use std::marker::Model;

/// Names that are taken. Contracts see them as a list.
#[derive(Drop)]
pub(crate) struct Names<'a> {
    set: BTreeSet<&'a [u8]>,
}

impl<'a> Model for Names<'a> {
    ghost use Rattle.std.specs.Prelude.{ℕ, List, map};

    ghost Value = { List (List ℕ) };

    ghost view = { λ n. map (λ name. name.now) n.set.keys };
}

impl<'a> Names<'a> {
    /// None yet.
    pub(crate) fn new(alloc: Global) -> Names<'a>
        ensures { (name : List ℕ) → is_taken result name ≡ false }
    {
        Names {
            set: BTreeSet::new(alloc),
        }
    }

    /// Takes a name. It answers whether it was free.
    pub(crate) fn insert(&mut self, name: &'a [u8]) -> Result<bool, NoMemory>
        ensures free { IfOk result (λ free. free ≡ not (is_taken self.old name.now)) }
        ensures taken { OnOk result ((other : List ℕ) → is_taken self.new other ≡ (bytes_eq name.now other || is_taken self.old other)) }
    {
        Ok(self.set.insert(name)?)
    }
}
