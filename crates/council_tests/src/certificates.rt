// When a certificate is good, and which councils and statements there are.
use council::certificate::is_good;
use council::council::Council;
use council::signing::Record;
use council::statement::{Signature, Statement};
use records::list::ListRecord;
use records::sheet::SheetRecord;
use refusals::Refusal;
use std::ops::Range;
use std::process::Abort;
use std::test::Fail;

fn sample() -> Statement {
    Statement {
        view: 1,
        lead: 2,
        step: 1,
        edition: 98,
    }
}

// Each of these posts signs the statement.
fn sign_each<R: Record>(
    book: &mut R,
    signers: Range<u8>,
    statement: Statement,
) -> Result<(), Fail> {
    for signer in signers {
        book.sign(Signature { signer, statement })?;
    }
    Ok(())
}

// With f = 1 and the signatures of posts 0 to 2 held: 7 is good; 3 names too few; 23 names post 4,
// which the council does not have; 11 names post 3, which did not sign.
fn readings<R: Record>(rt: &impl Abort, book: &mut R) -> Result<(), Fail> {
    let council = Council::new(1)?;
    assert!(rt; book.is_empty());
    sign_each(book, 0..3, sample())?;
    assert!(rt; !book.is_empty());
    assert!(rt; is_good(&council, book, 7, &sample()));
    assert!(rt; !is_good(&council, book, 3, &sample()));
    assert!(rt; !is_good(&council, book, 23, &sample()));
    assert!(rt; !is_good(&council, book, 11, &sample()));
    assert!(rt; !is_good(&council, book, 0, &sample()));
    assert!(rt; !is_good(&council, book, 7, &Statement::skip(1)));
    larger_mask(rt, &council, book)
}

// A fourth signer makes the mask of all four good; a post outside the council that signed does not.
fn larger_mask<R: Record>(rt: &impl Abort, council: &Council, book: &mut R) -> Result<(), Fail> {
    sign_each(book, 3..5, sample())?;
    assert!(rt; is_good(council, book, 15, &sample()));
    assert!(rt; !is_good(council, book, 31, &sample()));
    Ok(())
}

#[test]
fn readings_of_the_list(rt: HostRuntime) -> Result<(), Fail> {
    let mut book = ListRecord::new(rt.alloc(), 5)?;
    readings(&rt, &mut book)?;
    assert_eq!(rt; book.signers(&sample()), 31);
    assert_eq!(rt; book.signers(&Statement::skip(1)), 0);
    Ok(())
}

#[test]
fn readings_of_the_sheet(rt: HostRuntime) -> Result<(), Fail> {
    let mut book = SheetRecord::new(rt.alloc(), 5)?;
    readings(&rt, &mut book)
}

#[test]
fn largest_council(rt: HostRuntime) -> Result<(), Fail> {
    let council = Council::new(21)?;
    let mut book = SheetRecord::new(rt.alloc(), 64)?;
    let last = Statement::skip(1_000);
    sign_each(&mut book, 0..64, last)?;
    assert!(rt; is_good(&council, &book, u64::MAX, &last));
    assert!(rt; is_good(&council, &book, (1 << 43) - 1, &last));
    assert!(rt; !is_good(&council, &book, (1 << 42) - 1, &last));
    Ok(())
}

#[test]
fn councils(rt: HostRuntime) -> Result<(), Fail> {
    for f in 1..=21u8 {
        let council = Council::new(f)?;
        assert_eq!(rt; council.bad(), f);
        assert_eq!(rt; council.posts(), 3 * f + 1);
        assert_eq!(rt; council.quorum(), 2 * f + 1);
    }
    Ok(())
}

#[test]
fn councils_refused(rt: HostRuntime) {
    for f in [0, 22, 64, 85, 255] {
        assert_eq!(rt; Council::new(f).err(), Some(Refusal::BadOpening));
    }
}

#[test]
fn shapes(rt: HostRuntime) -> Result<(), Fail> {
    let council = Council::new(1)?;
    let base = sample();
    let last = Statement {
        lead: 3,
        step: 4,
        view: 1_000,
        ..base
    };
    for statement in [base, last, Statement::skip(1), Statement::skip(1_000)] {
        assert!(rt; statement.has_shape(&council));
    }
    let shapeless = [
        Statement::skip(0),
        Statement::skip(1_001),
        Statement { view: 0, ..base },
        Statement {
            view: 1_001,
            ..base
        },
        Statement { lead: 4, ..base },
        Statement { step: 0, ..base },
        Statement { step: 5, ..base },
        Statement { edition: 0, ..base },
    ];
    for statement in shapeless {
        assert!(rt; !statement.has_shape(&council));
    }
    Ok(())
}
