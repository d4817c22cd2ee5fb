// How a post takes SEND.
ghost use Rattle.std.specs.Prelude.{◌≡◌};
ghost use Rattle.refusals.specs.Tables.{first_refusal};
ghost use Rattle.posts.specs.Effects.{on_send};
ghost use Rattle.posts.specs.Judging.{first_tests, key_proven, send_tests};
ghost use Rattle.posts.specs.Taking.{TookOn};

use crate::oracles::Oracles;
use crate::papers::Papers;
use crate::post::Post;
use crate::seat::Seat;
use council::certificate::is_good;
use council::check::Check;
use council::draw::Draw;
use council::signing::Record;
use council::statement::Statement;
use letters::letter::{Ack, Body, Holding, Send};
use refusals::Refusal;

// Whether the key that a SEND of step 1 brings is proven: a start's, of view 0, needs no proof; any
// other needs a certificate of step 1 of its view's drawn lead.
fn is_key_proven<R: Record, D: Draw>(seat: Seat, send: Send, book: &R, draw: &D) -> bool
    ensures { result ≡ key_proven seat.council (R.held book.now) (D.lead draw.now) send }
{
    if send.key_view == 0 {
        return true;
    }
    let statement = Statement {
        view: send.key_view,
        lead: draw.lead_of(send.key_view),
        step: 1,
        edition: send.edition,
    };
    is_good(&seat.council, book, send.mask, &statement)
}

impl Post {
    // Whether SEND is sent back: the step was signed for this lead; at step 1 the edition is not
    // admitted, the key view is below the lock or not below the view, or the key is not proven; at
    // later steps the step before is not certified.
    fn judge_send<R: Record, C: Check, D: Draw>(
        &self,
        seat: Seat,
        sender: u8,
        send: Send,
        oracles: &Oracles<C, D>,
        book: &R,
    ) -> Result<(), Refusal>
        ensures { result ≡ first_refusal (send_tests seat.council (R.held book.now) (C.admitted oracles.now.check) (D.lead oracles.now.draw) self.now sender send) }
    {
        Refusal::Repeated.when(self.tables.has_signed(send.step, sender))?;
        if send.step == 1 {
            return self.judge_first(seat, send, oracles, book);
        }
        let before = self.saying(sender, send.step.saturating_sub(1), send.edition);
        Refusal::NotCertified.when(!is_good(&seat.council, book, send.mask, &before))
    }

    // Whether SEND of step 1, not signed for this lead yet, is sent back.
    fn judge_first<R: Record, C: Check, D: Draw>(
        &self,
        seat: Seat,
        send: Send,
        oracles: &Oracles<C, D>,
        book: &R,
    ) -> Result<(), Refusal>
        ensures { result ≡ first_refusal (first_tests seat.council (R.held book.now) (C.admitted oracles.now.check) (D.lead oracles.now.draw) self.now send) }
    {
        Refusal::EditionNotAdmitted.when(!oracles.check.admits(send.edition))?;
        let keys = self.standing.lock..self.view;
        Refusal::KeyViewOutOfRange.when(!keys.contains(&send.key_view))?;
        Refusal::NotCertified.when(!is_key_proven(seat, send, book, &oracles.draw))
    }

    // Signs for the lead's edition at the step, keeps the certificate that came, and says so.
    pub(crate) fn take_send<R: Record, C: Check, D: Draw>(
        &mut self,
        seat: Seat,
        sender: u8,
        send: Send,
        oracles: &Oracles<C, D>,
        papers: &mut Papers<R>,
    ) -> Result<(u8, u16), Refusal>
        ensures { TookOn R.held R.number R.capacity seat.me (send_tests seat.council (R.held papers.old.book) (C.admitted oracles.now.check) (D.lead oracles.now.draw) self.old sender send) (on_send seat.me self.old sender send)
            self.old papers.old result self.new papers.new }
    {
        self.judge_send(seat, sender, send, oracles, &papers.book)?;
        let Send {
            step,
            edition,
            mask,
            ..
        } = send;
        let statement = self.saying(sender, step, edition);
        let ack = Ack {
            lead: sender,
            step,
            edition,
        };
        let letter = self.letter(seat, Body::Ack(ack));
        papers.file(seat, Some(statement), &[letter])?;
        self.tables.sign(step, sender, Holding { edition, mask });
        Ok((1, self.view))
    }
}
