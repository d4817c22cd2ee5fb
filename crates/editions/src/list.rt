// A check by a list.
ghost use Rattle.std.specs.Prelude.{◌≡◌};
ghost use Rattle.editions.specs.Editions.{in_list};
ghost use Rattle.std.proofs.Common.{rules};

use council::check::Check;

// Admits the editions that stand in its list. A 0 in the list admits nothing.
#[derive(Drop)]
pub struct ListCheck {
    editions: Vec<u64>,
}

impl ListCheck {
    // The check that admits these editions.
    pub fn new(editions: Vec<u64>) -> ListCheck
        ensures { result.editions ≡ editions }
    {
        ListCheck { editions }
    }
}

// 0 is left out, whether it stands in the list or not.
impl Check for ListCheck {
    ghost admitted = { λ s. in_list s.editions.items };

    ghost lacks = { Prim.search rules };

    fn admits(&self, edition: u64) -> bool {
        edition != 0 && self.editions.contains(&edition)
    }
}
