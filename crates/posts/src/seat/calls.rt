// Taking a seat, and what follows from it.
ghost use Rattle.std.specs.Prelude.{◌≡◌};
ghost use Rattle.posts.specs.Effects.{completes};
ghost use Rattle.posts.specs.Seats.{Seated};

use crate::seat::Seat;
use council::council::Council;
use masks::mask::size;
use refusals::Refusal;

impl Seat {
    // The seat of post `me`. Refused: the council has no such post.
    pub fn new(council: Council, me: u8) -> Result<Seat, Refusal>
        ensures { Seated council me result }
    {
        if me >= council.posts() {
            return Err(Refusal::NoSuchPost);
        }
        Ok(Seat { council, me })
    }

    // Whether exactly a quorum was counted: so the last that was counted made it one.
    pub(crate) fn completes(self, counted: u64) -> bool
        ensures { result ≡ completes self.council counted }
    {
        size(counted) == self.council.quorum()
    }
}
