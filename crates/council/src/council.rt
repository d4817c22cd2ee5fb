// How many posts there are, how many of them may be bad, and how many make a quorum.
ghost use Rattle.std.specs.Prelude.{◌≡◌, ◌+◌, ◌*◌, ◌≤◌};

mod calls;

// A council of n posts, numbered from 0, of which at most f are bad (the field's word: replica
// group). Every council there is keeps what its ghost fields say, so no call asks it of its caller.
#[derive(Clone, Copy, Debug)]
pub struct Council {
    // How many may be bad.
    f: u8,
    // How many there are.
    n: u8,
    // How many make a quorum.
    quorum: u8,
    ghost range: { (1 ≤ f) × (f ≤ 21) },
    ghost posts: { n ≡ 3 * f + 1 },
    ghost enough: { quorum ≡ 2 * f + 1 },
}
