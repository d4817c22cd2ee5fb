// Forming a council, and its numbers.
ghost use Rattle.std.specs.Prelude.{◌≡◌, ◌+◌, ◌*◌, ◌<◌, ◌≤◌};
ghost use Rattle.council.specs.Councils.{Formed, QuorumsMeet};

use crate::council::Council;
use refusals::Refusal;

impl Council {
    // The council that withstands `f` bad posts. Refused: f is not 1 to 21.
    pub fn new(f: u8) -> Result<Council, Refusal>
        ensures { Formed f result }
    {
        match f {
            1..=21 => Ok(Council {
                f,
                n: 3 * f + 1,
                quorum: 2 * f + 1,
            }),
            _ => Err(Refusal::BadOpening),
        }
    }

    // How many posts may be bad: f.
    pub fn bad(&self) -> u8
        ensures { result ≡ self.now.f }
    {
        self.f
    }

    // How many posts there are: n.
    pub fn posts(&self) -> u8
        ensures value { result ≡ self.now.n }
        ensures masked { result ≤ 64 }
    {
        self.n
    }

    // How many posts make a quorum. The posts that are not bad make one, and any two share a post
    // that is not bad.
    #[tactic(auto, using(crate::proofs::Quorums::council_meets))]
    pub fn quorum(&self) -> u8
        ensures value { result ≡ self.now.quorum }
        ensures reached { result + self.now.f ≤ self.now.n }
        ensures overlap { self.now.n + self.now.f < 2 * result }
        ensures meet { QuorumsMeet self.now.n self.now.f result }
    {
        self.quorum
    }
}
