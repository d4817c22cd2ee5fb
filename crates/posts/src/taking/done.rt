// How a post takes DONE.
ghost use Rattle.std.specs.Prelude.{◌≡◌};
ghost use Rattle.refusals.specs.Tables.{first_refusal};
ghost use Rattle.posts.specs.Effects.{on_done};
ghost use Rattle.posts.specs.Judging.{done_tests};
ghost use Rattle.posts.specs.Taking.{TookOn};

use crate::papers::Papers;
use crate::post::Post;
use crate::seat::Seat;
use council::certificate::is_good;
use council::signing::Record;
use council::statement::{LAST_STEP, Statement};
use letters::letter::{Body, Done, SkipShare};
use masks::mask::{names_post, with_post};
use refusals::Refusal;

impl Post {
    // Whether DONE is sent back: its sender is counted, or its certificate is not good for the
    // sender's last step.
    fn judge_done<R: Record>(
        &self,
        seat: Seat,
        sender: u8,
        done: Done,
        book: &R,
    ) -> Result<(), Refusal>
        ensures { result ≡ first_refusal (done_tests seat.council (R.held book.now) self.now sender done) }
    {
        Refusal::Repeated.when(names_post(self.skips.done, sender))?;
        let last = self.saying(sender, LAST_STEP, done.edition);
        Refusal::NotCertified.when(!is_good(&seat.council, book, done.mask, &last))
    }

    // Counts the sender; at a quorum the post signs to skip, and says so.
    pub(crate) fn take_done<R: Record>(
        &mut self,
        seat: Seat,
        sender: u8,
        done: Done,
        papers: &mut Papers<R>,
    ) -> Result<(u8, u16), Refusal>
        ensures { TookOn R.held R.number R.capacity seat.me (done_tests seat.council (R.held papers.old.book) self.old sender done) (on_done seat.council seat.me self.old sender)
            self.old papers.old result self.new papers.new }
    {
        self.judge_done(seat, sender, done, &papers.book)?;
        let counted = with_post(self.skips.done, sender);
        if !seat.completes(counted) {
            self.skips.done = counted;
            return Ok((0, self.view));
        }
        let share = self.letter(seat, Body::SkipShare(SkipShare));
        papers.file(seat, Some(Statement::skip(self.view)), &[share])?;
        self.skips.done = counted;
        Ok((1, self.view))
    }
}
