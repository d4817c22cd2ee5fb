// How a post takes SKIP.
ghost use Rattle.posts.specs.Effects.{on_skip};
ghost use Rattle.posts.specs.Judging.{skip_tests};
ghost use Rattle.posts.specs.Taking.{TookOn};

use crate::papers::Papers;
use crate::post::{Phase, Post};
use crate::seat::Seat;
use council::certificate::is_good;
use council::draw::Draw;
use council::signing::Record;
use council::statement::Statement;
use letters::letter::{Body, Skip};
use refusals::Refusal;

impl Post {
    // Passes SKIP on unless the post wrote SKIP before, starts exchanging, and tells what it holds of
    // the broadcast of the view's drawn lead. Sent back: the certificate is not good.
    pub(crate) fn take_skip<R: Record, D: Draw>(
        &mut self,
        seat: Seat,
        skip: Skip,
        draw: &D,
        papers: &mut Papers<R>,
    ) -> Result<(u8, u16), Refusal>
        ensures { TookOn R.held R.number R.capacity seat.me (skip_tests seat.council (R.held papers.old.book) self.old skip) (on_skip (D.lead draw.now self.old.view) seat.me self.old skip)
            self.old papers.old result self.new papers.new }
    {
        let statement = Statement::skip(self.view);
        let good = is_good(&seat.council, &papers.book, skip.mask, &statement);
        Refusal::NotCertified.when(!good)?;
        let held = self.tables.of_lead(draw.lead_of(self.view));
        let told = self.letter(seat, Body::ViewChange(held));
        if self.skips.wrote {
            papers.file(seat, None, &[told])?;
            self.phase = Phase::Exchanging;
            return Ok((1, self.view));
        }
        papers.file(seat, None, &[self.letter(seat, Body::Skip(skip)), told])?;
        self.skips.wrote = true;
        self.phase = Phase::Exchanging;
        Ok((2, self.view))
    }
}
