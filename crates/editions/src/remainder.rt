// A check by a remainder.
ghost use Rattle.editions.specs.Editions.{remainder_one};
ghost use Rattle.std.proofs.Common.{rules};

use council::check::Check;

// Admits the editions that leave remainder 1 on division by 97, as numbers with two check digits
// after ISO 7064 MOD 97-10 do.
#[derive(Clone, Copy)]
pub struct RemainderCheck;

// 0 leaves remainder 0, so it needs no test of its own.
impl Check for RemainderCheck {
    ghost admitted = { λ _. remainder_one };

    ghost lacks = { Prim.search rules };

    fn admits(&self, edition: u64) -> bool {
        edition % 97 == 1
    }
}
