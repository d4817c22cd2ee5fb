// How many posts a draw can be from.
ghost use Rattle.std.specs.Prelude.{Decides};
ghost use Rattle.leads.specs.Leads.{Drawable};

// Whether a draw can be from `n` posts: a mask has a bit for each of 64.
pub fn is_drawable(n: u8) -> bool
    ensures { Decides result (Drawable n) }
{
    matches!(n, 1..=64)
}
