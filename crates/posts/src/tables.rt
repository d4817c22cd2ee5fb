// The tables of a post: what it has of every lead's broadcast.
ghost use Rattle.std.specs.Prelude.{◌≡◌, ◌-◌, slice_index, slice_index_or, slice_set};
ghost use Rattle.masks.specs.Masks.{naming};
ghost use Rattle.posts.specs.Posts.{empty_tables, holdings_of, no_holdings, signed_for, signing, storing};

use letters::letter::{Holding, ViewChange};
use masks::mask::{names_post, with_post};

// What the post has of every lead's broadcast in its view. Arrays, since no call allocates: there is
// a row for each lead that a council can have.
#[derive(Clone, Copy)]
pub struct Tables {
    // For each step, the leads that the post signed for.
    signed: [u64; 4],
    // For each lead, what the post would tell of its broadcast: the certified edition of its first,
    // second and third step.
    holdings: [ViewChange; 64],
}

// What is held once a SEND of this step is signed: the certificate that it brought belongs to the
// step before. Steps are numbers here as in letters; which field a step fills stands here alone.
fn storing(held: ViewChange, step: u8, holding: Holding) -> ViewChange
    ensures { result ≡ storing held step holding }
{
    match step {
        2 => ViewChange {
            key: holding,
            ..held
        },
        3 => ViewChange {
            lock: holding,
            ..held
        },
        4 => ViewChange {
            commit: holding,
            ..held
        },
        _ => held,
    }
}

// The row of a step; step 0, which no letter has, has that of step 1.
fn row_of(step: u8) -> usize
    ensures { result ≡ step - 1 }
{
    usize::from(step).saturating_sub(1)
}

// Marks the lead at the step. By a test of the row: a proof knows nothing of an item that `get_mut`
// lent once it is given back.
#[tactic(auto, using(std::proofs::lemmas::List::set_past))]
fn mark(signed: &mut [u64], step: u8, lead: u8)
    ensures { signed.new ≡ slice_set signed.old (step - 1) (naming (slice_index signed.old (step - 1)) lead) }
{
    let row = row_of(step);
    if row < signed.len() {
        signed[row] = with_post(signed[row], lead);
    }
}

// Stores what a SEND of the lead brought. Like `mark`, over other items: one for both would take the
// change as a closure, and its contract would say nothing of it but that it was called.
#[tactic(auto, using(std::proofs::lemmas::List::set_past))]
fn store(holdings: &mut [ViewChange], step: u8, lead: u8, holding: Holding)
    ensures { holdings.new ≡ slice_set holdings.old lead (storing (slice_index_or holdings.old lead no_holdings) step holding) }
{
    let row = usize::from(lead);
    if row < holdings.len() {
        holdings[row] = storing(holdings[row], step, holding);
    }
}

impl Tables {
    // No lead signed for, nothing held.
    #[tactic(auto, unfolding(crate::specs::Posts::empty_tables))]
    pub(crate) fn empty() -> Tables
        ensures { result ≡ empty_tables }
    {
        Tables {
            signed: [0; 4],
            holdings: [ViewChange::default(); 64],
        }
    }

    // Whether the post signed for the lead at the step.
    pub(crate) fn has_signed(&self, step: u8, lead: u8) -> bool
        ensures { result ≡ signed_for self.now step lead }
    {
        let leads = self.signed.get(row_of(step)).copied().unwrap_or(0);
        names_post(leads, lead)
    }

    // Marks the lead at the step, and stores what its SEND brought.
    pub(crate) fn sign(&mut self, step: u8, lead: u8, holding: Holding)
        ensures { self.new ≡ signing self.old step lead holding }
    {
        mark(&mut self.signed, step, lead);
        store(&mut self.holdings, step, lead, holding);
    }

    // What is held of the lead's broadcast; nothing of a lead that no council has.
    pub(crate) fn of_lead(&self, lead: u8) -> ViewChange
        ensures { result ≡ holdings_of self.now lead }
    {
        self.holdings
            .get(usize::from(lead))
            .copied()
            .unwrap_or_default()
    }
}
