// Making and setting a turn.
ghost use Rattle.std.specs.Prelude.{◌≡◌};
ghost use Rattle.leads.specs.Settings.{TurnSet};

use crate::size::is_drawable;
use crate::turn::Turn;
use refusals::Refusal;

impl Turn {
    // The turn with this offset, for one post.
    pub fn new(offset: u8) -> Turn
        ensures { (result.n ≡ 1) × (result.offset ≡ offset) }
    {
        Turn { n: 1, offset }
    }

    // Makes the turn one for `n` posts, with the offset that it has. Refused: n is not 1 to 64.
    pub fn set(&mut self, n: u8) -> Result<(), Refusal>
        ensures { TurnSet self.old n self.new result }
    {
        if !is_drawable(n) {
            return Err(Refusal::BadOpening);
        }
        self.n = n;
        Ok(())
    }
}
