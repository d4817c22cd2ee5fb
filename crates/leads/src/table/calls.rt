// Making and setting a table.
ghost use Rattle.std.specs.Prelude.{◌≡◌, [], ◌∷◌, IfOk};
ghost use Rattle.leads.specs.Settings.{TableSet};

use crate::size::is_drawable;
use crate::table::Table;
use refusals::Refusal;
use std::alloc::{AllocError, Global};

impl Table {
    // The table for one post.
    pub fn new(heap: Global) -> Result<Table, AllocError>
        ensures { IfOk result (λ t. (t.n ≡ 1) × (t.entries.items ≡ 0 ∷ [])) }
    {
        Ok(Table {
            n: 1,
            entries: vec![in heap; 0]?,
        })
    }

    // Makes the table one for `n` posts, with these entries. Refused: n is not 1 to 64, there is no
    // entry, or one is not below n.
    pub fn set(&mut self, n: u8, entries: Vec<u8>) -> Result<(), Refusal>
        ensures { TableSet self.old n entries.items self.new result }
    {
        if !is_drawable(n) || entries.is_empty() || entries.iter().any(|entry| *entry >= n) {
            return Err(Refusal::BadOpening);
        }
        self.n = n;
        self.entries = entries;
        Ok(())
    }
}
