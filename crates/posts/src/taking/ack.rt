// How a post takes ACK.
ghost use Rattle.std.specs.Prelude.{◌≡◌, ◌≤◌};
ghost use Rattle.refusals.specs.Tables.{first_refusal};
ghost use Rattle.posts.specs.Effects.{next_letter, on_ack};
ghost use Rattle.posts.specs.Judging.{ack_tests};
ghost use Rattle.posts.specs.Taking.{TookOn};

use crate::papers::Papers;
use crate::post::{Broadcast, Post};
use crate::seat::Seat;
use council::signing::Record;
use council::statement::{LAST_STEP, Signature};
use letters::letter::{Ack, Body, Done, Letter, Send};
use masks::mask::{names_post, with_post};
use refusals::Refusal;

impl Post {
    // Whether ACK is sent back: it is not for the post's own step and edition, its sender is counted,
    // or did not sign.
    fn judge_ack<R: Record>(
        &self,
        seat: Seat,
        sender: u8,
        ack: Ack,
        book: &R,
    ) -> Result<(), Refusal>
        ensures { result ≡ first_refusal (ack_tests (R.held book.now) seat.me self.now sender ack) }
    {
        let own = ack.lead == seat.me
            && ack.step == self.broadcast.step
            && ack.edition == self.standing.key.edition;
        Refusal::NotOwnBroadcast.when(!own)?;
        Refusal::Repeated.when(names_post(self.broadcast.acks, sender))?;
        let signature = Signature {
            signer: sender,
            statement: self.saying(seat.me, ack.step, ack.edition),
        };
        Refusal::NotCertified.when(!book.holds(&signature))
    }

    // The letter that follows a certified step: the next SEND, or DONE after the last.
    fn next_letter(&self, seat: Seat, mask: u64) -> Letter
        ensures { result ≡ next_letter seat.me self.now mask }
    {
        let edition = self.standing.key.edition;
        if self.broadcast.step >= LAST_STEP {
            return self.letter(seat, Body::Done(Done { edition, mask }));
        }
        let send = Send {
            step: self.broadcast.step + 1,
            edition,
            key_view: 0,
            mask,
        };
        self.letter(seat, Body::Send(send))
    }

    // Counts the sender; at a quorum the own step rises, and the counted posts certify it.
    pub(crate) fn take_ack<R: Record>(
        &mut self,
        seat: Seat,
        sender: u8,
        ack: Ack,
        papers: &mut Papers<R>,
    ) -> Result<(u8, u16), Refusal>
        requires { ack.step ≤ 4 }
        ensures { TookOn R.held R.number R.capacity seat.me (ack_tests (R.held papers.old.book) seat.me self.old sender ack) (on_ack seat.council seat.me self.old sender)
            self.old papers.old result self.new papers.new }
    {
        self.judge_ack(seat, sender, ack, &papers.book)?;
        let acks = with_post(self.broadcast.acks, sender);
        if !seat.completes(acks) {
            self.broadcast.acks = acks;
            return Ok((0, self.view));
        }
        papers.file(seat, None, &[self.next_letter(seat, acks)])?;
        self.broadcast = Broadcast {
            step: ack.step + 1,
            acks: 0,
        };
        Ok((1, self.view))
    }
}
