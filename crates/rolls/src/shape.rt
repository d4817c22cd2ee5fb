// Which letters have shape: numbers that can mean something to a council.
ghost use Rattle.std.specs.Prelude.{◌≡◌, Decides};
ghost use Rattle.rolls.specs.Shapes.{AckShape, ChangeShape, LetterShape, Paired, SendShape, ack_shaped, change_shaped, letter_shaped, paired, send_shaped};

use council::council::Council;
use council::statement::{LAST_STEP, LAST_VIEW};
use letters::letter::{Ack, Body, Holding, Letter, Send, ViewChange};

// Whether edition and mask are both there or both absent.
fn is_paired(holding: Holding) -> bool
    ensures value { result ≡ paired holding }
    ensures rule { Decides result (Paired holding) }
{
    (holding.edition == 0) == (holding.mask == 0)
}

// Whether a SEND has shape. The key view is 0 after step 1, and a key of view 0 has no certificate.
fn is_send_shaped(send: Send) -> bool
    ensures value { result ≡ send_shaped send }
    ensures rule { Decides result (SendShape send) }
{
    if !(1..=LAST_STEP).contains(&send.step) || send.edition == 0 {
        return false;
    }
    if send.step == 1 {
        send.key_view <= LAST_VIEW && (send.key_view != 0 || send.mask == 0)
    } else {
        send.key_view == 0
    }
}

// Whether an ACK has shape in a council of `n` posts.
fn is_ack_shaped(n: u8, ack: Ack) -> bool
    ensures value { result ≡ ack_shaped n ack }
    ensures rule { Decides result (AckShape n ack) }
{
    ack.lead < n && (1..=LAST_STEP).contains(&ack.step) && ack.edition != 0
}

// Whether a VIEW-CHANGE has shape.
fn is_change_shaped(change: ViewChange) -> bool
    ensures value { result ≡ change_shaped change }
    ensures rule { Decides result (ChangeShape change) }
{
    is_paired(change.key) && is_paired(change.lock) && is_paired(change.commit)
}

// Whether the letter has shape in the council.
pub fn has_shape(letter: &Letter, council: &Council) -> bool
    ensures value { result ≡ letter_shaped council.now.n letter.now }
    ensures rule { Decides result (LetterShape council.now.n letter.now) }
{
    let n = council.posts();
    if letter.sender >= n || !(1..=LAST_VIEW).contains(&letter.view) {
        return false;
    }
    match letter.body {
        Body::Send(send) => is_send_shaped(send),
        Body::Ack(ack) => is_ack_shaped(n, ack),
        Body::Done(done) => done.edition != 0,
        Body::SkipShare(_) | Body::Skip(_) => true,
        Body::ViewChange(change) => is_change_shaped(change),
    }
}
