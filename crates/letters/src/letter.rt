// What letters say, by kind.
ghost use Rattle.std.specs.Prelude.{◌≡◌};
ghost use Rattle.letters.specs.Layout.{code_of, kind_of};

use crate::kind::Kind;

// An edition (the field's word: value) held with its certificate (quorum certificate), the mask of
// the posts that signed for it; both are 0 where nothing is held. They are numbers and no Option:
// whatever two numbers a line has here, it must read back as itself.
#[derive(Clone, Copy, Debug, Default, PartialEq, Eq)]
pub struct Holding {
    pub edition: u64,
    pub mask: u64,
}

// A lead proposes an edition at a step of its broadcast; at step 1 with the view and the certificate
// of its key, at later steps with the certificate of the step before. A key view of 0 is none: whatever
// number a line has there, it must read back as itself.
#[derive(Clone, Copy, Debug, PartialEq, Eq)]
pub struct Send {
    pub step: u8,
    pub edition: u64,
    pub key_view: u16,
    pub mask: u64,
}

// The sender signed for a lead's edition at a step.
#[derive(Clone, Copy, Debug, PartialEq, Eq)]
pub struct Ack {
    pub lead: u8,
    pub step: u8,
    pub edition: u64,
}

// The sender's broadcast is complete, with the certificate of its last step. It has a holding's fields
// and is none: it is claimed, not held.
#[derive(Clone, Copy, Debug, PartialEq, Eq)]
pub struct Done {
    pub edition: u64,
    pub mask: u64,
}

// The sender signed to skip to the view's exchange.
#[derive(Clone, Copy, Debug, PartialEq, Eq)]
pub struct SkipShare;

// Enough posts signed to skip.
#[derive(Clone, Copy, Debug, PartialEq, Eq)]
pub struct Skip {
    pub mask: u64,
}

// What the sender holds of the broadcast of the view's drawn lead.
#[derive(Clone, Copy, Debug, Default, PartialEq, Eq)]
pub struct ViewChange {
    pub key: Holding,
    pub lock: Holding,
    pub commit: Holding,
}

// What a letter says after its view, by kind.
#[derive(Clone, Copy, Debug, PartialEq, Eq)]
pub enum Body {
    Send(Send),
    Ack(Ack),
    Done(Done),
    SkipShare(SkipShare),
    Skip(Skip),
    ViewChange(ViewChange),
}

// A letter (the field's word: message): who sent it, in which view, and what it says. Nothing here
// judges whether the numbers make sense to any council.
#[derive(Clone, Copy, Debug, PartialEq, Eq)]
pub struct Letter {
    pub sender: u8,
    pub view: u16,
    pub body: Body,
}

impl Body {
    // The kind of a letter that says this.
    pub fn kind(&self) -> Kind
        ensures { result ≡ kind_of self.now }
    {
        match self {
            Body::Send(_) => Kind::Send,
            Body::Ack(_) => Kind::Ack,
            Body::Done(_) => Kind::Done,
            Body::SkipShare(_) => Kind::SkipShare,
            Body::Skip(_) => Kind::Skip,
            Body::ViewChange(_) => Kind::ViewChange,
        }
    }

    // The code that a line of this kind begins with.
    pub fn code(&self) -> u8
        ensures { result ≡ code_of self.now }
    {
        self.kind().code()
    }
}
