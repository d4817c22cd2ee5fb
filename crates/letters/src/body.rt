// The kinds of letter: the length of each, and its fields in their order. Each kind names its fields
// once to read and once to write: over tuples they would be named a third time and be no shorter, and an
// impl that a macro of the repository writes is refused.
ghost use Rattle.std.specs.Prelude.{◌≡◌, ℕ, ◌+◌, ◌-◌, ◌*◌, ◌≤◌, [], ◌∷◌, length};
ghost use Rattle.letters.specs.Layout.{kind_of, parts_of, size_of};
ghost use Rattle.letters.specs.Parts.{after, long};
ghost use Rattle.letters.specs.declared.kind.Kind.{Kind};
ghost use Rattle.letters.specs.declared.letter.Body.{Body};
ghost use Rattle.std.proofs.Common.{rules};
ghost use Rattle.arrayvec.specs.ArrayVec.{array_vec_len};

use crate::field::{Field, Fields, LineText};
use crate::kind::Kind;
use crate::letter::{Ack, Body, Done, Holding, Send, Skip, SkipShare, ViewChange};

// What the kinds of letter have in common. `kind` and `means` tie it to the layout.
pub(crate) trait LetterKind: Field + Into<Body> {
    // How many bytes a frame of the kind has, the code, the sender and the view among them.
    const LENGTH: usize;

    ghost LENGTH: { ℕ };

    ghost kind: { Kind };

    // The lengths are those of the layout.
    ghost sized: { (LENGTH ≡ size_of kind) × (Self.width + 8 ≡ 2 * size_of kind) };

    // As a body it is of the kind, and has its fields.
    ghost means: { (k : Self) (b : Body) → Self.converts k b → (kind_of b ≡ kind) × (parts_of b ≡ Self.parts k) };
}

impl Field for Holding {
    ghost parts = { λ h. long h.edition ∷ long h.mask ∷ [] };

    ghost width = { 32 };

    fn read(fields: &mut Fields) -> Holding {
        Holding {
            edition: u64::read(fields),
            mask: u64::read(fields),
        }
    }

    fn write(&self, line: &mut LineText) {
        let Holding { edition, mask } = self;
        edition.write(line);
        mask.write(line);
    }
}

impl Field for Send {
    ghost parts = { λ k. parts_of (Body.Send k) };

    ghost width = { 38 };

    fn read(fields: &mut Fields) -> Send {
        Send {
            step: u8::read(fields),
            edition: u64::read(fields),
            key_view: u16::read(fields),
            mask: u64::read(fields),
        }
    }

    fn write(&self, line: &mut LineText) {
        self.step.write(line);
        self.edition.write(line);
        self.key_view.write(line);
        self.mask.write(line);
    }
}

impl From<Send> for Body {
    ghost from_gives = { λ k b. b ≡ Body.Send k };

    fn from(send: Send) -> Body {
        Body::Send(send)
    }
}

impl LetterKind for Send {
    const LENGTH: usize = 23;

    ghost LENGTH = { 23 };

    ghost kind = { Kind.Send };

    ghost sized = { Prim.search rules };

    ghost means = { Prim.search rules };
}

impl Field for Ack {
    ghost parts = { λ k. parts_of (Body.Ack k) };

    ghost width = { 20 };

    fn read(fields: &mut Fields) -> Ack {
        Ack {
            lead: u8::read(fields),
            step: u8::read(fields),
            edition: u64::read(fields),
        }
    }

    fn write(&self, line: &mut LineText) {
        self.lead.write(line);
        self.step.write(line);
        self.edition.write(line);
    }
}

impl From<Ack> for Body {
    ghost from_gives = { λ k b. b ≡ Body.Ack k };

    fn from(ack: Ack) -> Body {
        Body::Ack(ack)
    }
}

impl LetterKind for Ack {
    const LENGTH: usize = 14;

    ghost LENGTH = { 14 };

    ghost kind = { Kind.Ack };

    ghost sized = { Prim.search rules };

    ghost means = { Prim.search rules };
}

impl Field for Done {
    ghost parts = { λ k. parts_of (Body.Done k) };

    ghost width = { 32 };

    fn read(fields: &mut Fields) -> Done {
        Done {
            edition: u64::read(fields),
            mask: u64::read(fields),
        }
    }

    fn write(&self, line: &mut LineText) {
        self.edition.write(line);
        self.mask.write(line);
    }
}

impl From<Done> for Body {
    ghost from_gives = { λ k b. b ≡ Body.Done k };

    fn from(done: Done) -> Body {
        Body::Done(done)
    }
}

impl LetterKind for Done {
    const LENGTH: usize = 20;

    ghost LENGTH = { 20 };

    ghost kind = { Kind.Done };

    ghost sized = { Prim.search rules };

    ghost means = { Prim.search rules };
}

impl Field for SkipShare {
    ghost parts = { λ k. parts_of (Body.SkipShare k) };

    ghost width = { 0 };

    fn read(_: &mut Fields) -> SkipShare {
        SkipShare
    }

    fn write(&self, _: &mut LineText) {}
}

impl From<SkipShare> for Body {
    ghost from_gives = { λ k b. b ≡ Body.SkipShare k };

    fn from(share: SkipShare) -> Body {
        Body::SkipShare(share)
    }
}

impl LetterKind for SkipShare {
    const LENGTH: usize = 4;

    ghost LENGTH = { 4 };

    ghost kind = { Kind.SkipShare };

    ghost sized = { Prim.search rules };

    ghost means = { Prim.search rules };
}

impl Field for Skip {
    ghost parts = { λ k. parts_of (Body.Skip k) };

    ghost width = { 16 };

    fn read(fields: &mut Fields) -> Skip {
        Skip {
            mask: u64::read(fields),
        }
    }

    fn write(&self, line: &mut LineText) {
        self.mask.write(line);
    }
}

impl From<Skip> for Body {
    ghost from_gives = { λ k b. b ≡ Body.Skip k };

    fn from(skip: Skip) -> Body {
        Body::Skip(skip)
    }
}

impl LetterKind for Skip {
    const LENGTH: usize = 12;

    ghost LENGTH = { 12 };

    ghost kind = { Kind.Skip };

    ghost sized = { Prim.search rules };

    ghost means = { Prim.search rules };
}

impl Field for ViewChange {
    ghost parts = { λ k. parts_of (Body.ViewChange k) };

    ghost width = { 96 };

    fn read(fields: &mut Fields) -> ViewChange {
        ViewChange {
            key: Holding::read(fields),
            lock: Holding::read(fields),
            commit: Holding::read(fields),
        }
    }

    fn write(&self, line: &mut LineText) {
        self.key.write(line);
        self.lock.write(line);
        self.commit.write(line);
    }
}

impl From<ViewChange> for Body {
    ghost from_gives = { λ k b. b ≡ Body.ViewChange k };

    fn from(change: ViewChange) -> Body {
        Body::ViewChange(change)
    }
}

impl LetterKind for ViewChange {
    const LENGTH: usize = 52;

    ghost LENGTH = { 52 };

    ghost kind = { Kind.ViewChange };

    ghost sized = { Prim.search rules };

    ghost means = { Prim.search rules };
}

impl Kind {
    // How many characters a line of the kind has.
    pub(crate) fn characters(self) -> usize
        ensures { result ≡ 2 * size_of self }
    {
        2 * match self {
            Kind::Send => Send::LENGTH,
            Kind::Ack => Ack::LENGTH,
            Kind::Done => Done::LENGTH,
            Kind::SkipShare => SkipShare::LENGTH,
            Kind::Skip => Skip::LENGTH,
            Kind::ViewChange => ViewChange::LENGTH,
        }
    }
}

impl Body {
    // Writes the fields after the view.
    pub(crate) fn write(&self, line: &mut LineText)
        requires { array_vec_len line.old + (2 * size_of (kind_of self.now) - 8) ≤ 104 }
        ensures text { line.new.items ≡ after line.old.items (parts_of self.now) }
        ensures len { array_vec_len line.new ≡ array_vec_len line.old + (2 * size_of (kind_of self.now) - 8) }
    {
        match self {
            Body::Send(send) => send.write(line),
            Body::Ack(ack) => ack.write(line),
            Body::Done(done) => done.write(line),
            Body::SkipShare(share) => share.write(line),
            Body::Skip(skip) => skip.write(line),
            Body::ViewChange(change) => change.write(line),
        }
    }
}
