// A set of posts as a 64-bit number, whose bit p names post p (the field's word: signer bitmap).
// Posts from 64 on have no bit: no mask names them, and adding one changes nothing. A mask is a
// plain number: a letter's must read back whatever bits it has, so a type round it would carry no fact.
ghost use Rattle.std.specs.Prelude.{◌≡◌, ℕ, ◌<◌, ◌≤◌, true, ◌||◌, Decides, ◌==◌};
ghost use Rattle.masks.specs.Masks.{Inside, named, naming, tally};

// Whether the mask names the post.
pub fn names_post(mask: u64, post: u8) -> bool
    ensures value { result ≡ named mask post }
    ensures low { result ≡ true → post < 64 }
{
    post < 64 && (mask >> post) & 1 == 1
}

// The mask with the post named too.
pub fn with_post(mask: u64, post: u8) -> u64
    ensures value { result ≡ naming mask post }
    ensures added { post < 64 → (p : ℕ) → named result p ≡ (p == post || named mask p) }
    ensures none { 64 ≤ post → result ≡ mask }
{
    if post >= 64 {
        return mask;
    }
    mask | (1 << post)
}

// How many posts the mask names.
#[tactic(auto, using(crate::proofs::Tallies::ones_tally))]
pub fn size(mask: u64) -> u8
    ensures { result ≡ tally mask }
{
    mask.count_ones() as u8
}

// Whether the mask names posts below `n` alone.
pub fn within(mask: u64, n: u8) -> bool
    ensures { Decides result (Inside mask n) }
{
    n >= 64 || mask >> n == 0
}
