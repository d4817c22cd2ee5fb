// What all posts share, and how a post signs and writes.
ghost use Rattle.std.specs.Prelude.{◌≡◌, None};
ghost use Rattle.refusals.specs.Tables.{first_refusal};
ghost use Rattle.posts.specs.Taking.{after, contents, filed, limits};

use crate::seat::Seat;
use council::signing::Record;
use council::statement::{Signature, Statement};
use letters::letter::Letter;
use refusals::Refusal;
use rolls::roll::Roll;

// The papers that all posts share: the roll of letters and the record of signatures. No Model stands for
// what they say, so contracts name a record's set, number and capacity each time: a Model's value is
// data, and a set of signatures is a function.
#[derive(Drop)]
pub struct Papers<R> {
    pub roll: Roll,
    pub book: R,
}

impl<R: Record> Papers<R> {
    // Signs the statement, if there is one, and adds the letters to the roll. Refused: the roll has no
    // places for all, then the record is full.
    pub(crate) fn file(
        &mut self,
        seat: Seat,
        signs: Option<Statement>,
        writes: &[Letter],
    ) -> Result<(), Refusal>
        ensures answer { result ≡ first_refusal (limits seat.me (contents R.held R.number R.capacity self.old) signs writes.now) }
        ensures unsigned { signs ≡ None → self.new.book ≡ self.old.book }
        ensures filed { contents R.held R.number R.capacity self.new
            ≡ after result (contents R.held R.number R.capacity self.old)
            (filed seat.me (contents R.held R.number R.capacity self.old) signs writes.now) }
    {
        Refusal::RollFull.when(self.roll.room() < writes.len())?;
        if let Some(statement) = signs {
            self.book.sign(Signature {
                signer: seat.me,
                statement,
            })?;
        }
        self.roll.add(writes)
    }
}
