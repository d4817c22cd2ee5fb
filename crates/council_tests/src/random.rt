// Numbers that look random, the same in every run: Marsaglia's xorshift on 32 bits.
ghost use Rattle.std.specs.Prelude.{◌<◌};

// A generator by its state.
#[derive(Drop)]
pub(crate) struct Random {
    state: u32,
}

impl Random {
    // A generator that starts from the seed.
    pub(crate) fn new(seed: u32) -> Random {
        Random { state: seed }
    }

    // The next number below `bound`; 0 where the bound is 0.
    pub(crate) fn below(&mut self, bound: u32) -> u32
        ensures { 0 < bound → result < bound }
    {
        self.state ^= self.state << 13;
        self.state ^= self.state >> 17;
        self.state ^= self.state << 5;
        self.state.checked_rem(bound).unwrap_or(0)
    }
}
