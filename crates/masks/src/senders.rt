// The posts behind a matter, worked out by one text for every kind of entry.
ghost use Rattle.std.specs.Prelude.{◌≡◌, ℕ, Bool, length, Decides};
ghost use Rattle.masks.specs.Senders.{Senders};

use crate::mask::with_post;

// What comes from a post and is on some matter: a signature on its statement, a letter of its kind
// and view.
pub trait Entry {
    type Matter: PartialEq + Drop;

    // The post it comes from.
    ghost from: { Self → ℕ };

    // What it is on.
    ghost about: { Self → Self.Matter };

    // The post it comes from.
    fn sender(&self) -> u8
        ensures { result ≡ from self.now };

    // What it is on.
    fn matter(&self) -> Self::Matter
        ensures { result ≡ about self.now };

    // Comparing two matters tells whether they are one.
    ghost exact: { (x y : Self.Matter) (r : Bool) → (r ≡ Self.Matter.PartialEq.eq x y) → Decides r (x ≡ y) };
}

// The mask of the senders of the entries on the matter.
pub fn senders<E: Entry>(entries: &[E], matter: &E::Matter) -> u64
    ensures { Senders E.from E.about entries.now (length entries.now) matter.now result }
{
    entries
        .iter()
        .filter(|entry| entry.matter() == *matter)
        .fold(0, |mask, entry| with_post(mask, entry.sender()))
}
