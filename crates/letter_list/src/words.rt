// The listing in words.
use letters::kind::Kind;
use letters::letter::{Body, Holding, Letter};
use lines::damage::{Damage, Layer};
use listing::tally::Tally;
use masks::mask::names_post;
use std::fmt;

// What stands above the rows.
#[derive(Drop)]
pub struct Heading;

// A letter, with the number of its line and its own, counted from 0.
#[derive(Drop)]
pub struct Listed {
    pub number: u16,
    pub place: u32,
    pub letter: Letter,
}

// A damaged line.
#[derive(Drop)]
pub struct Damaged {
    pub number: u16,
    pub damage: Damage,
}

// How many lines there were of each sort, and whether there were more than are read.
#[derive(Drop)]
pub struct Summary {
    pub tally: Tally,
    pub more: bool,
}

// What a letter says after its view.
#[derive(Drop)]
struct Contents(Body);

// The posts that a mask names: runs of numbers, or none.
#[derive(Drop)]
struct Posts(u64);

// Posts one after the other.
#[derive(Drop)]
struct Run {
    first: u8,
    last: u8,
}

// A holding: an edition and who signed for it, or none.
#[derive(Drop)]
struct Held(Holding);

impl fmt::Display for Heading {
    fn fmt<W: fmt::Write>(&self, f: &mut fmt::Formatter<W>) -> fmt::Result {
        write!(f, " line  letter  kind         from   view  contents")
    }
}

impl fmt::Display for Listed {
    fn fmt<W: fmt::Write>(&self, f: &mut fmt::Formatter<W>) -> fmt::Result {
        let kind = self.letter.body.kind().name();
        write!(
            f,
            "{:>5}  {:>6}  {kind:<11}  {:>4}  {:>5}  {}",
            self.number,
            self.place,
            self.letter.sender,
            self.letter.view,
            Contents(self.letter.body)
        )
    }
}

impl fmt::Display for Damaged {
    fn fmt<W: fmt::Write>(&self, f: &mut fmt::Formatter<W>) -> fmt::Result {
        write!(
            f,
            "{:>5}          damaged      {}",
            self.number, self.damage
        )
    }
}

impl fmt::Display for Contents {
    fn fmt<W: fmt::Write>(&self, f: &mut fmt::Formatter<W>) -> fmt::Result {
        match self.0 {
            Body::Send(send) => write!(
                f,
                "step {}, edition {}, key view {}, signed by {}",
                send.step,
                send.edition,
                send.key_view,
                Posts(send.mask)
            ),
            Body::Ack(ack) => write!(
                f,
                "lead {}, step {}, edition {}",
                ack.lead, ack.step, ack.edition
            ),
            Body::Done(done) => write!(
                f,
                "edition {}, signed by {}",
                done.edition,
                Posts(done.mask)
            ),
            Body::SkipShare(_) => write!(f, "-"),
            Body::Skip(skip) => write!(f, "signed by {}", Posts(skip.mask)),
            Body::ViewChange(change) => write!(
                f,
                "key {}; lock {}; commit {}",
                Held(change.key),
                Held(change.lock),
                Held(change.commit)
            ),
        }
    }
}

impl fmt::Display for Held {
    fn fmt<W: fmt::Write>(&self, f: &mut fmt::Formatter<W>) -> fmt::Result {
        let Holding { edition, mask } = self.0;
        if edition == 0 && mask == 0 {
            return write!(f, "none");
        }
        write!(f, "{edition} signed by {}", Posts(mask))
    }
}

impl Posts {
    // Where the run that begins with this post ends.
    fn run(&self, first: u8) -> Run {
        let last = (first..64)
            .take_while(|post| names_post(self.0, *post))
            .last();
        Run {
            first,
            last: last.unwrap_or(first),
        }
    }
}

impl fmt::Display for Posts {
    fn fmt<W: fmt::Write>(&self, f: &mut fmt::Formatter<W>) -> fmt::Result {
        let begins = |post: &u8| {
            names_post(self.0, *post) && (*post == 0 || !names_post(self.0, *post - 1))
        };
        let mut runs = (0..64u8).filter(begins).map(|first| self.run(first));
        match runs.next() {
            Some(run) => write!(f, "{run}")?,
            None => return write!(f, "none"),
        }
        for run in runs {
            write!(f, " {run}")?;
        }
        Ok(())
    }
}

impl fmt::Display for Run {
    fn fmt<W: fmt::Write>(&self, f: &mut fmt::Formatter<W>) -> fmt::Result {
        write!(f, "{}", self.first)?;
        if self.last > self.first {
            write!(f, "-{}", self.last)?;
        }
        Ok(())
    }
}

impl fmt::Display for Summary {
    fn fmt<W: fmt::Write>(&self, f: &mut fmt::Formatter<W>) -> fmt::Result {
        let tally = self.tally;
        writeln!(f, "{:<13}  {:>6}", "letters", tally.letters())?;
        for (kind, count) in [
            (Kind::Send, tally.send),
            (Kind::Ack, tally.ack),
            (Kind::Done, tally.done),
            (Kind::SkipShare, tally.skip_share),
            (Kind::Skip, tally.skip),
            (Kind::ViewChange, tally.view_change),
        ] {
            writeln!(f, "  {:<11}  {count:>6}", kind.name())?;
        }
        writeln!(f, "{:<13}  {:>6}", "notes", tally.notes)?;
        writeln!(f, "{:<13}  {:>6}", "damaged", tally.damaged())?;
        writeln!(f, "  {:<11}  {:>6}", Layer::Text.name(), tally.text)?;
        writeln!(f, "  {:<11}  {:>6}", Layer::Frame.name(), tally.frame)?;
        writeln!(f, "{:<13}  {:>6}", "lines", tally.lines())?;
        if self.more {
            writeln!(f, "Only the first {} lines were read.", tally.lines())?;
        }
        Ok(())
    }
}
