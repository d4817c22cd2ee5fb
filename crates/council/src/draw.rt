// What a draw is: which post leads a view.
ghost use Rattle.std.specs.Prelude.{◌≡◌, ℕ, ◌<◌};

// A draw means a lead for each view, below n and the same each time (the field's word: leader
// election). It stands for the coin that is tossed after the broadcasts of a view.
pub trait Draw {
    // How many posts it draws from: n.
    ghost size: { Self → ℕ };

    // The lead of each view.
    ghost lead: { Self → ℕ → ℕ };

    // How many posts it draws from.
    fn posts(&self) -> u8
        ensures { result ≡ size self.now };

    // The lead of the view.
    fn lead_of(&self, view: u16) -> u8
        ensures { result ≡ lead self.now view };

    // Each lead is one of the posts.
    ghost below: { (s : Self) (view : ℕ) → lead s view < size s };
}
