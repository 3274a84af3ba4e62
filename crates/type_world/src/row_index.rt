//! Rows by a key, found without a walk through the table.

ghost use Rattle.std.specs.Prelude.{◌≡◌, ◌<◌, ◌≤◌, ◌+◌, ◌^◌, length, IfOk};
ghost use Rattle.type_world.specs.RowIndex.{key_of, row_with};

use indexmap::IndexMap;
use rtr_bytes::NoMemory;
use std::alloc::Global;
use std::marker::Model;

/// The rows of a table by a key that each has: the first row of a key, and the next one of the same key. Contracts see the keys, of which
/// the first is row 1's.
#[derive(Debug, Drop)]
pub(crate) struct RowIndex {
    keys: Vec<u32>,
    first: IndexMap<u32, u32>,
    next: Vec<u32>,
}

impl Model for RowIndex {
    ghost use Rattle.std.specs.Prelude.{ℕ, List, nat_eq};
    ghost use Rattle.indexmap.specs.IndexMap.{get};
    ghost use Rattle.type_world.specs.RowIndex.{IsIndex};

    ghost Value = { List ℕ };

    ghost view = { λ i. i.keys.items };

    ghost invariant = { λ i. IsIndex i.keys.items (get nat_eq i.first) i.next.items };
}

impl RowIndex {
    /// The index of some keys. It is made in one pass, from the last row to the first.
    pub(crate) fn of(alloc: Global, keys: Vec<u32>) -> Result<RowIndex, NoMemory>
        requires few { length keys.items < 2 ^ 24 }
        ensures keys { IfOk result (λ index. index ≡ keys.items) }
    {
        let mut first = IndexMap::new(alloc);
        let mut next = Vec::new(alloc);
        let rows = keys.len() as u32;
        for after in 0..rows {
            let row = rows - after;
            let key = keys[(row - 1) as usize];
            let later = first.insert(key, row)?;
            next.push(later.unwrap_or(0))?;
        }
        Ok(RowIndex { keys, first, next })
    }

    /// The first row with a key. `None` exactly where there is none.
    pub(crate) fn first(&self, key: u32) -> Option<u32>
        ensures { result ≡ row_with self.now key 1 }
    {
        self.first.get(&key).copied()
    }

    /// The next row with the key of a row. `None` exactly where there is none.
    pub(crate) fn next(&self, row: u32) -> Option<u32>
        requires some { 0 < row }
        requires there { row ≤ length self.now }
        ensures { result ≡ row_with self.now (key_of self.now row) (row + 1) }
    {
        let next = self.next.as_slice();
        let later = next[self.keys.len() - row as usize];
        if later == 0 { None } else { Some(later) }
    }
}
