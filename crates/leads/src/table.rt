// A draw by a table.
ghost use Rattle.std.specs.Prelude.{◌<◌, length};
ghost use Rattle.leads.specs.Leads.{AllUnder, Drawable, by_table};
ghost use Rattle.std.proofs.Common.{rules};

use council::draw::Draw;

mod calls;

// The leads stand in a table that is read over and over: view j has entry j mod its length.
#[derive(Drop)]
pub struct Table {
    n: u8,
    entries: Vec<u8>,
    ghost range: { Drawable n },
    ghost some: { 0 < length entries.items },
    ghost under: { AllUnder n entries.items },
}

// Entries are below n and there is one at least, so each view has a lead.
impl Draw for Table {
    ghost size = { λ s. s.n };

    ghost lead = { λ s. by_table s.entries.items };

    ghost below = { Prim.search rules };

    fn posts(&self) -> u8 {
        self.n
    }

    fn lead_of(&self, view: u16) -> u8 {
        self.entries[usize::from(view) % self.entries.len()]
    }
}
