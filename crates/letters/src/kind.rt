// The kinds of letter.
ghost use Rattle.std.specs.Prelude.{◌≡◌, Some};
ghost use Rattle.letters.specs.Layout.{code_at};
ghost use Rattle.letters.specs.Kinds.{Decodes, word_of};
ghost use Rattle.refusals.specs.declared.Refusal.{Refusal};

use refusals::Refusal;
use std::fmt;

// The kinds of letter, each with the code that its lines begin with.
#[derive(Clone, Copy, Debug, PartialEq, Eq)]
pub enum Kind {
    Send = 0x11,
    Ack = 0x12,
    Done = 0x13,
    SkipShare = 0x14,
    Skip = 0x15,
    ViewChange = 0x16,
}

// No kind of letter has the code.
#[derive(Clone, Copy, Debug, PartialEq, Eq)]
pub struct UnknownCode;

impl Kind {
    // The code that a line of this kind begins with.
    pub fn code(self) -> u8
        ensures { result ≡ code_at self }
    {
        self as u8
    }

    // Its name, as rows give it.
    pub fn name(self) -> &'static str
        ensures { result.now ≡ word_of self }
    {
        match self {
            Kind::Send => "SEND",
            Kind::Ack => "ACK",
            Kind::Done => "DONE",
            Kind::SkipShare => "SKIP-SHARE",
            Kind::Skip => "SKIP",
            Kind::ViewChange => "VIEW-CHANGE",
        }
    }
}

impl TryFrom<u8> for Kind {
    type Error = UnknownCode;

    ghost try_from_gives = { Decodes };

    fn try_from(code: u8) -> Result<Kind, UnknownCode> {
        match code {
            0x11 => Ok(Kind::Send),
            0x12 => Ok(Kind::Ack),
            0x13 => Ok(Kind::Done),
            0x14 => Ok(Kind::SkipShare),
            0x15 => Ok(Kind::Skip),
            0x16 => Ok(Kind::ViewChange),
            _ => Err(UnknownCode),
        }
    }
}

// A question about an unknown kind has no shape.
impl From<UnknownCode> for Refusal {
    ghost from_gives = { λ _ refusal. refusal ≡ Refusal.Malformed };

    fn from(_: UnknownCode) -> Refusal {
        Refusal::Malformed
    }
}

impl fmt::Display for Kind {
    ghost output = { λ kind. Some (word_of kind) };

    fn fmt<W: fmt::Write>(&self, f: &mut fmt::Formatter<W>) -> fmt::Result {
        f.pad(self.name())
    }
}
