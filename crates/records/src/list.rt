// A record that is a list of signatures.
ghost use Rattle.std.specs.Prelude.{◌≡◌, ℕ, ◌≤◌, true, [], IfOk, vec_len, vec_capacity, refl};
ghost use Rattle.std.proofs.Common.{sym};
ghost use Rattle.masks.specs.Masks.{named};
ghost use Rattle.council.specs.Signatures.{by, distinct, listed};
ghost use Rattle.records.specs.Lists.{all_masked, masked_listed};

use crate::wanted::is_wanted;
use council::signing::Record;
use council::statement::{Signature, Statement};
use masks::senders::senders;
use refusals::Refusal;
use std::alloc::{AllocError, Global};

// Signatures in the order in which they came, none twice. The memory for all of them is reserved
// when the record is made: no call allocates after `new`, so this is a list and no map. The number
// of places stands beside it, since a Vec may have more capacity than was asked for.
#[derive(Drop)]
pub struct ListRecord {
    signatures: Vec<Signature>,
    places: usize,
    ghost room: { (vec_len signatures ≤ places) × (places ≤ vec_capacity signatures) },
    ghost once: { distinct signatures.items ≡ true },
    ghost masked: { all_masked signatures.items ≡ true },
}

impl ListRecord {
    // An empty record with so many places, each for a signature. It reads like the sheet's: each sets
    // fields of its own, and one for both would say no more.
    pub fn new(heap: Global, places: usize) -> Result<ListRecord, AllocError>
        ensures { IfOk result (λ l. (l.signatures.items ≡ []) × (l.places ≡ places)) }
    {
        Ok(ListRecord {
            signatures: Vec::with_capacity(heap, places)?,
            places,
        })
    }

    // The mask of the posts whose signature on the statement is held.
    pub fn signers(&self, statement: &Statement) -> u64
        ensures { (p : ℕ) → named result p ≡ listed self.now.signatures.items (by p statement.now) }
    {
        senders(&self.signatures, statement)
    }
}

// It holds what stands in the list.
impl Record for ListRecord {
    ghost held = { λ s. listed s.signatures.items };

    ghost number = { λ s. vec_len s.signatures };

    ghost capacity = { λ s. s.places };

    ghost numbered = { λ s. (s.signatures.items, s.once, sym s.signatures.ok.0, λ x. refl) };

    ghost masked = { λ s x h. masked_listed s.signatures.items x s.masked h };

    ghost within = { λ s. s.room.0 };

    fn holds(&self, signature: &Signature) -> bool {
        self.signatures.contains(signature)
    }

    fn count(&self) -> usize {
        self.signatures.len()
    }

    fn sign(&mut self, signature: Signature) -> Result<(), Refusal> {
        let full = self.signatures.len() == self.places;
        // No record is searched for a signer that it refuses.
        let held = signature.signer < 64 && self.holds(&signature);
        if is_wanted(&signature, held, full)? {
            self.signatures.push_reserved(signature);
        }
        Ok(())
    }
}
