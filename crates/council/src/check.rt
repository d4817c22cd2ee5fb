// What a check is: which editions are admitted.
ghost use Rattle.std.specs.Prelude.{◌≡◌, ℕ, Bool, false};

// A check means a fixed set of admitted editions, 0 not among them (the field's word: external
// validity).
pub trait Check {
    // The admitted editions, as a test.
    ghost admitted: { Self → ℕ → Bool };

    // Whether the edition is admitted.
    fn admits(&self, edition: u64) -> bool
        ensures { result ≡ admitted self.now edition };

    // 0 means no edition.
    ghost lacks: { (s : Self) → admitted s 0 ≡ false };
}
