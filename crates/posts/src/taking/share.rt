// How a post takes SKIP-SHARE.
ghost use Rattle.std.specs.Prelude.{◌≡◌};
ghost use Rattle.refusals.specs.Tables.{first_refusal};
ghost use Rattle.posts.specs.Effects.{on_share};
ghost use Rattle.posts.specs.Judging.{share_tests};
ghost use Rattle.posts.specs.Taking.{TookOn};

use crate::papers::Papers;
use crate::post::Post;
use crate::seat::Seat;
use council::signing::Record;
use council::statement::{Signature, Statement};
use letters::letter::{Body, Skip};
use masks::mask::{names_post, with_post};
use refusals::Refusal;

impl Post {
    // Whether SKIP-SHARE is sent back: its sender is counted, or did not sign to skip.
    fn judge_share<R: Record>(&self, sender: u8, book: &R) -> Result<(), Refusal>
        ensures { result ≡ first_refusal (share_tests (R.held book.now) self.now sender) }
    {
        Refusal::Repeated.when(names_post(self.skips.shares, sender))?;
        let signature = Signature {
            signer: sender,
            statement: Statement::skip(self.view),
        };
        Refusal::NotCertified.when(!book.holds(&signature))
    }

    // Counts the sender; at a quorum the post writes SKIP with the counted posts.
    pub(crate) fn take_share<R: Record>(
        &mut self,
        seat: Seat,
        sender: u8,
        papers: &mut Papers<R>,
    ) -> Result<(u8, u16), Refusal>
        ensures { TookOn R.held R.number R.capacity seat.me (share_tests (R.held papers.old.book) self.old sender) (on_share seat.council seat.me self.old sender)
            self.old papers.old result self.new papers.new }
    {
        self.judge_share(sender, &papers.book)?;
        let shares = with_post(self.skips.shares, sender);
        if !seat.completes(shares) {
            self.skips.shares = shares;
            return Ok((0, self.view));
        }
        let skip = self.letter(seat, Body::Skip(Skip { mask: shares }));
        papers.file(seat, None, &[skip])?;
        self.skips.shares = shares;
        self.skips.wrote = true;
        Ok((1, self.view))
    }
}
