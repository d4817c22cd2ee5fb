// A record that is a sheet with a row for each statement.
ghost use Rattle.std.specs.Prelude.{◌≡◌, ◌≤◌, true, [], IfOk, nat_lt, vec_len, vec_capacity};
ghost use Rattle.std.proofs.Common.{sym, ◌∙◌};
ghost use Rattle.std.proofs.lemmas.Bool.{ltb-true, and_parts};
ghost use Rattle.records.specs.Rows.{apart, marked, on_sheet, total};
ghost use Rattle.records.specs.Spread.{spread, listed-spread, distinct-spread, length-spread};

use crate::row::{Row, mark};
use crate::wanted::is_wanted;
use council::signing::Record;
use council::statement::Signature;
use masks::mask::names_post;
use refusals::Refusal;
use std::alloc::{AllocError, Global};

// A row for each statement that was signed, with the mask of its signers. The memory is reserved
// when the record is made: as many rows as places, since each signature may be on a statement of
// its own. No call allocates after `new`, so the rows are a list and no map. The number of places
// stands beside it, since a Vec may have more capacity than was asked for.
#[derive(Drop)]
pub struct SheetRecord {
    rows: Vec<Row>,
    number: usize,
    places: usize,
    ghost room: { (vec_len rows ≤ number) × (number ≤ places) × (places ≤ vec_capacity rows) },
    ghost once: { apart rows.items ≡ true },
    ghost counted: { total rows.items ≡ number },
}

impl SheetRecord {
    // An empty record with so many places, each for a signature. It reads like the list's: each sets
    // fields of its own, and one for both would say no more.
    pub fn new(heap: Global, places: usize) -> Result<SheetRecord, AllocError>
        ensures { IfOk result (λ s. (s.rows.items ≡ []) × (s.places ≡ places)) }
    {
        Ok(SheetRecord {
            rows: Vec::with_capacity(heap, places)?,
            number: 0,
            places,
        })
    }
}

// It holds what its rows mark.
impl Record for SheetRecord {
    ghost held = { λ s. on_sheet s.rows.items };

    ghost number = { λ s. s.number };

    ghost capacity = { λ s. s.places };

    ghost numbered = { λ s.
        let rs = s.rows.items in
        (spread 64 rs, distinct-spread 64 rs s.once, length-spread rs ∙ s.counted, λ x. sym (listed-spread 64 rs x)) };

    ghost masked = { λ s x h. ltb-true x.signer 64 (and_parts (nat_lt x.signer 64) (marked s.rows.items x) h).0 };

    ghost within = { λ s. s.room.1 };

    fn holds(&self, signature: &Signature) -> bool {
        self.rows
            .iter()
            .find(|row| row.statement == signature.statement)
            .is_some_and(|row| names_post(row.signers, signature.signer))
    }

    fn count(&self) -> usize {
        self.number
    }

    fn sign(&mut self, signature: Signature) -> Result<(), Refusal> {
        let full = self.number == self.places;
        // No record is searched for a signer that it refuses.
        let held = signature.signer < 64 && self.holds(&signature);
        if is_wanted(&signature, held, full)? {
            mark(&mut self.rows, signature);
            self.number += 1;
        }
        Ok(())
    }
}
