// What posts sign.
ghost use Rattle.std.specs.Prelude.{◌≡◌, Decides};
ghost use Rattle.council.specs.Signatures.{same};
ghost use Rattle.council.specs.Statements.{Shape, of_broadcast, same_statement, shaped, skipping};
ghost use Rattle.std.proofs.Common.{rules};

use crate::council::Council;
use masks::senders::Entry;

// The last view. Views are numbered from 1.
pub const LAST_VIEW: u16 = 1_000;

// The last step of a broadcast. Steps are numbered from 1.
pub const LAST_STEP: u8 = 4;

// A statement: at this step of the lead's broadcast in the view stands this edition (the field's
// word: the signed payload of a vote). Edition 0 means none; all numbers may be signed and kept, shape
// or no shape, so it is no Option.
#[derive(Clone, Copy, Debug, PartialEq, Eq)]
pub struct Statement {
    pub view: u16,
    pub lead: u8,
    pub step: u8,
    pub edition: u64,
}

// A signature: a post that signed a statement (the field's word: signed vote, partial signature).
#[derive(Clone, Copy, Debug, PartialEq, Eq)]
pub struct Signature {
    pub signer: u8,
    pub statement: Statement,
}

// A signature comes from its signer, and is on its statement.
impl Entry for Signature {
    type Matter = Statement;

    ghost from = { λ s. s.signer };

    ghost about = { λ s. s.statement };

    ghost exact = { Prim.search rules };

    fn sender(&self) -> u8 {
        self.signer
    }

    fn matter(&self) -> Statement {
        self.statement
    }
}

impl Signature {
    // Whether two signatures are one: what `==` says. A derive has no clause, so it is promised here.
    pub fn is_same(&self, other: &Signature) -> bool
        ensures value { result ≡ same self.now other.now }
        ensures same { Decides result (self.now ≡ other.now) }
    {
        self == other
    }
}

impl Statement {
    // Whether two statements are one: what `==` says.
    pub fn is_same(&self, other: &Statement) -> bool
        ensures value { result ≡ same_statement self.now other.now }
        ensures same { Decides result (self.now ≡ other.now) }
    {
        self == other
    }

    // The skip statement of a view: its broadcasts are to end. By name, since a conversion from a
    // number would not say so.
    pub fn skip(view: u16) -> Statement
        ensures { result ≡ skipping view }
    {
        Statement {
            view,
            lead: 0,
            step: 0,
            edition: 0,
        }
    }

    // Whether the statement has shape in the council.
    pub fn has_shape(&self, council: &Council) -> bool
        ensures value { result ≡ shaped council.now.n self.now }
        ensures rule { Decides result (Shape council.now.n self.now) }
    {
        (1..=LAST_VIEW).contains(&self.view)
            && (*self == Statement::skip(self.view) || self.is_of_broadcast(council))
    }

    // Whether the statement is on a step of a lead's broadcast, with an edition.
    fn is_of_broadcast(&self, council: &Council) -> bool
        ensures { result ≡ of_broadcast council.now.n self.now }
    {
        self.lead < council.posts() && (1..=LAST_STEP).contains(&self.step) && self.edition != 0
    }
}
