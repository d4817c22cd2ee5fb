// A draw by turns.
ghost use Rattle.leads.specs.Leads.{Drawable, by_turns};
ghost use Rattle.std.proofs.Common.{rules};

use council::draw::Draw;

mod calls;

// The posts lead in turn: view j has lead (j + offset) mod n.
#[derive(Clone, Copy)]
pub struct Turn {
    n: u8,
    offset: u8,
    ghost range: { Drawable n },
}

// The sum is taken in 32 bits, where no view and offset overflow.
impl Draw for Turn {
    ghost size = { λ s. s.n };

    ghost lead = { λ s. by_turns s.n s.offset };

    ghost below = { Prim.search rules };

    fn posts(&self) -> u8 {
        self.n
    }

    fn lead_of(&self, view: u16) -> u8 {
        ((u32::from(view) + u32::from(self.offset)) % u32::from(self.n)) as u8
    }
}
