// How a post enters a view.
ghost use Rattle.std.specs.Prelude.{◌≡◌, []};
ghost use Rattle.posts.specs.Effects.{enter, entering, opening};
ghost use Rattle.posts.specs.Taking.{TookOn};

use crate::papers::Papers;
use crate::post::{Broadcast, Phase, Post, Skips, Standing};
use crate::seat::Seat;
use crate::tables::Tables;
use council::signing::Record;
use letters::letter::{Body, Letter, Send};
use refusals::Refusal;

impl Post {
    // The post with this standing begins its broadcast in the view: counts, marks and holdings are
    // emptied, and SEND of step 1 is written. Refused: the roll is full.
    pub(crate) fn enter<R: Record>(
        &mut self,
        seat: Seat,
        standing: Standing,
        view: u16,
        papers: &mut Papers<R>,
    ) -> Result<(u8, u16), Refusal>
        ensures { TookOn R.held R.number R.capacity seat.me [] (enter seat.me standing view)
            self.old papers.old result self.new papers.new }
    {
        let post = Post::broadcasting(standing, view);
        papers.file(seat, None, &[post.opening(seat)])?;
        *self = post;
        Ok((1, self.view))
    }

    // A post with this standing at the beginning of a view.
    fn broadcasting(standing: Standing, view: u16) -> Post
        ensures { result ≡ entering standing view }
    {
        Post {
            phase: Phase::Broadcasting,
            view,
            standing,
            broadcast: Broadcast { step: 1, acks: 0 },
            skips: Skips::default(),
            tables: Tables::empty(),
            changes: 0,
        }
    }

    // SEND of step 1, with the post's key.
    fn opening(&self, seat: Seat) -> Letter
        ensures { result ≡ opening seat.me self.now.standing.key self.now.view }
    {
        let key = self.standing.key;
        let send = Send {
            step: 1,
            edition: key.edition,
            key_view: key.view,
            mask: key.mask,
        };
        self.letter(seat, Body::Send(send))
    }
}
