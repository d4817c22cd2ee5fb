// How a post takes letters: what each kind is refused for, and what it does. It answers how many letters
// it wrote and its view, as two plain numbers: so the rules have it. ACK, DONE and SKIP-SHARE each count
// the sender in a field of their own and do another thing at a quorum: one function for the three would
// take the field and the deed from its caller, and have nothing left to say. Seat and sender go together
// in them, but the one is the post's own and the other the letter's.
ghost use Rattle.std.specs.Prelude.{◌≡◌};
ghost use Rattle.posts.specs.Effects.{letter};
ghost use Rattle.posts.specs.Judging.{saying};

use crate::post::Post;
use crate::seat::Seat;
use council::statement::Statement;
use letters::letter::{Body, Letter};

mod ack;
mod done;
mod enter;
mod send;
mod share;
mod skip;

impl Post {
    // In the post's view, at this step of the lead's broadcast stands this edition.
    fn saying(&self, lead: u8, step: u8, edition: u64) -> Statement
        ensures { result ≡ saying self.now.view lead step edition }
    {
        Statement {
            view: self.view,
            lead,
            step,
            edition,
        }
    }

    // A letter of the post in its view.
    fn letter(&self, seat: Seat, body: Body) -> Letter
        ensures { result ≡ letter seat.me self.now.view body }
    {
        Letter {
            sender: seat.me,
            view: self.view,
            body,
        }
    }
}
