// Why a call is refused. Everything in the project refuses with these, and only this crate knows
// their numbers.
#![tactic(auto)]

ghost use Rattle.std.specs.Prelude.{◌≡◌, ◌≤◌, [], ◌∷◌, ◌==◌, Decides};
ghost use Rattle.refusals.specs.Numbers.{number_of};
ghost use Rattle.refusals.specs.Tables.{first_refusal};

// A refusal: a call that breaks a condition answers the lowest number that applies and changes
// nothing (the field's word: error code). docs/REFUSALS.md says when each comes.
#[derive(Clone, Copy, Debug, PartialEq, Eq)]
pub enum Refusal {
    // Opening: f is not 1 to 21, too few posts are handed in, or the draw is for another n. Setting a
    // draw: it makes none.
    BadOpening = 1,
    // Opening: the record holds a signature.
    RecordNotEmpty = 2,
    // The post or sender is not below n. Signing: the signer is above 63.
    NoSuchPost = 3,
    // The letter number is not on the roll.
    NoSuchLetter = 4,
    // Start, deliver, corrupt: the post is corrupted.
    PostCorrupted = 5,
    // Plant, endorse: the post is not corrupted.
    PostNotCorrupted = 6,
    // Corrupt: f posts are corrupted already.
    TooManyCorrupted = 7,
    // Start: the post is not idle. Deliver: it is idle or ended.
    PostNotReady = 8,
    // A letter, statement or question has no shape, or the started edition is 0.
    Malformed = 9,
    // The letter's view is not the post's.
    OtherView = 10,
    // The post's phase does not take letters of this kind.
    KindNotTaken = 11,
    // ACK: lead, step or edition is not the post's own.
    NotOwnBroadcast = 12,
    // The step was signed for this lead, or the sender was counted.
    Repeated = 13,
    // The check turns the edition down.
    EditionNotAdmitted = 14,
    // The key view is below the lock, or not below the view.
    KeyViewOutOfRange = 15,
    // A certificate is not good, or a signature is not held.
    NotCertified = 16,
    // The roll lacks places for the letters to be added.
    RollFull = 17,
    // The record is full.
    RecordFull = 18,
    // Writing a line: the buffer is too short.
    BufferTooShort = 19,
}

impl Refusal {
    // The number by which a refusal is known outside the program.
    pub fn number(self) -> u8
        ensures value { result ≡ number_of self }
        ensures range { (1 ≤ result) × (result ≤ 19) }
        ensures apart { (other : Refusal) → number_of other ≡ result → other ≡ self }
    {
        self as u8
    }

    // Whether two refusals are one: what `==` says. A derive has no clause, so it is promised here.
    pub fn is_same(self, other: Refusal) -> bool
        ensures value { result ≡ (number_of self == number_of other) }
        ensures same { Decides result (self ≡ other) }
    {
        self == other
    }

    // Refuses with this, if the test holds.
    pub fn when(self, test: bool) -> Result<(), Refusal>
        ensures { result ≡ first_refusal ((test, self) ∷ []) }
    {
        if test {
            return Err(self);
        }
        Ok(())
    }
}
