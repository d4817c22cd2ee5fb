// When a certificate is good: the one test that all of agreement rests on.
ghost use Rattle.std.specs.Prelude.{◌≡◌, Decides};
ghost use Rattle.council.specs.Certificates.{AllSignedBelow, Certifies, CertificateLaws, good};

use crate::council::Council;
use crate::signing::Record;
use crate::statement::{Signature, Statement};
use masks::mask::{names_post, size, within};

// Whether the mask is a good certificate of the statement (the field's word: quorum certificate). Mask
// and statement stay apart: a letter brings the one, and who asks says the other.
#[tactic(auto, using(crate::proofs::Certified::certificate_laws))]
pub fn is_good<R: Record>(council: &Council, book: &R, mask: u64, statement: &Statement) -> bool
    ensures value { result ≡ good council.now (R.held book.now) mask statement.now }
    ensures rule { Decides result (Certifies council.now (R.held book.now) mask statement.now) }
    ensures laws { CertificateLaws council.now (R.held book.now) mask statement.now }
{
    certifies(council, book, mask, statement)
}

// Whether the rule of certificates holds. Apart from `is_good`, since what that promises besides
// follows from the rule.
fn certifies<R: Record>(council: &Council, book: &R, mask: u64, statement: &Statement) -> bool
    ensures { Decides result (Certifies council.now (R.held book.now) mask statement.now) }
{
    within(mask, council.posts())
        && council.quorum() <= size(mask)
        && all_signed(council.posts(), book, mask, statement)
}

// Whether each post below `n` that the mask names signed the statement.
fn all_signed<R: Record>(n: u8, book: &R, mask: u64, statement: &Statement) -> bool
    ensures { Decides result (AllSignedBelow n (R.held book.now) mask statement.now) }
{
    (0..n).all(|signer| {
        let signature = Signature {
            signer,
            statement: *statement,
        };
        !names_post(mask, signer) || book.holds(&signature)
    })
}
