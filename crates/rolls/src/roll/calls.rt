// Making a roll, adding to it, and asking it.
ghost use Rattle.std.specs.Prelude.{◌≡◌, ◌-◌, min, [], length, IfOk};
ghost use Rattle.rolls.specs.Rolls.{Added, Asked, LetterAt, most_places};

use crate::roll::Roll;
use council::statement::LAST_VIEW;
use letters::kind::Kind;
use letters::letter::Letter;
use masks::senders::senders;
use refusals::Refusal;
use std::alloc::{AllocError, Global};

// The most letters that a roll takes, so that each has a number of two bytes.
pub const MOST_PLACES: usize = 65_535;

impl Roll {
    // An empty roll with so many places, each for a letter; those past 65,535 stay unused.
    pub fn new(heap: Global, places: usize) -> Result<Roll, AllocError>
        ensures { IfOk result (λ l. (l.letters.items ≡ []) × (l.places ≡ min places most_places)) }
    {
        let places = places.min(MOST_PLACES);
        Ok(Roll {
            letters: Vec::with_capacity(heap, places)?,
            places,
        })
    }

    // Empties the roll; its places stay.
    pub fn clear(&mut self)
        ensures letters { self.new.letters.items ≡ [] }
        ensures places { self.new.places ≡ self.old.places }
    {
        self.letters.clear();
    }

    // How many more letters the roll takes.
    pub fn room(&self) -> usize
        ensures { result ≡ self.now.places - length self.now.letters.items }
    {
        self.places - self.letters.len()
    }

    // The letter with this number. Refused: it is not on the roll.
    pub fn letter(&self, number: u16) -> Result<Letter, Refusal>
        ensures { LetterAt self.now.letters.items number result }
    {
        self.letters
            .get(usize::from(number))
            .copied()
            .ok_or(Refusal::NoSuchLetter)
    }

    // Adds the letters, in their order. Refused: there are not places for all.
    pub fn add(&mut self, letters: &[Letter]) -> Result<(), Refusal>
        ensures { Added self.old letters.now self.new result }
    {
        if self.room() < letters.len() {
            return Err(Refusal::RollFull);
        }
        // There are places for all, so no memory is asked for.
        let Ok(()) = self.letters.extend_from_slice(letters) else {
            unreachable()
        };
        Ok(())
    }

    // The mask of the senders of the letters of the kind with this code in the view. Refused: no kind
    // has the code, or there is no such view. Any byte may be asked for, so the code is no Kind.
    pub fn senders(&self, code: u8, view: u16) -> Result<u64, Refusal>
        ensures { Asked self.now.letters.items code view result }
    {
        Kind::try_from(code)?;
        if !(1..=LAST_VIEW).contains(&view) {
            return Err(Refusal::Malformed);
        }
        Ok(senders(&self.letters, &(code, view)))
    }
}
