// Both records under one test of signings that look random, against a plain model.
ghost use Rattle.std.specs.Prelude.{◌<◌};

use crate::random::Random;
use council::signing::Record;
use council::statement::{Signature, Statement};
use masks::mask::{names_post, with_post};
use records::list::ListRecord;
use records::sheet::SheetRecord;
use refusals::Refusal;
use std::alloc::AllocError;
use std::process::Abort;
use std::test::Fail;

// Eight statements, which differ in one field or in several.
fn statements() -> [Statement; 8] {
    let base = Statement {
        view: 1,
        lead: 0,
        step: 1,
        edition: 98,
    };
    let far = Statement {
        edition: u64::MAX,
        step: 255,
        ..base
    };
    [
        base,
        Statement { view: 2, ..base },
        Statement { lead: 1, ..base },
        Statement { step: 2, ..base },
        Statement {
            edition: 195,
            ..base
        },
        far,
        Statement::skip(1),
        Statement::skip(2),
    ]
}

// A statement with the mask of its signers.
#[derive(Clone, Copy)]
struct Row {
    statement: Statement,
    signers: u64,
}

// The signers of each statement, how many signatures there are, and how many there can be.
#[derive(Drop)]
struct Model {
    rows: [Row; 8],
    number: usize,
    places: usize,
}

impl Model {
    // Nothing signed.
    fn new(places: usize) -> Model {
        Model {
            rows: statements().map(|statement| Row {
                statement,
                signers: 0,
            }),
            number: 0,
            places,
        }
    }

    // What a record must answer, and the model after it.
    fn sign(&mut self, signer: u8, k: usize) -> Result<(), Refusal>
        requires { k < 8 }
    {
        if signer >= 64 {
            return Err(Refusal::NoSuchPost);
        }
        let signers = self.rows[k].signers;
        if names_post(signers, signer) {
            return Ok(());
        }
        if self.number >= self.places {
            return Err(Refusal::RecordFull);
        }
        self.rows[k].signers = with_post(signers, signer);
        self.number += 1;
        Ok(())
    }
}

// Signs 2,000 times, and asks after each.
fn signings<R: Record>(rt: &impl Abort, book: &mut R, seed: u32, places: usize) {
    let mut random = Random::new(seed);
    let mut model = Model::new(places);
    for _ in 0..2_000u32 {
        let k = random.below(8) as usize;
        let signer = random.below(66) as u8;
        let signature = Signature {
            signer,
            statement: model.rows[k].statement,
        };
        let expected = model.sign(signer, k);
        assert_eq!(rt; book.sign(signature), expected);
        assert_eq!(rt; book.count(), model.number);
        let Row { statement, signers } = model.rows[random.below(8) as usize];
        let asked = Signature { signer, statement };
        assert_eq!(rt; book.holds(&asked), names_post(signers, signer));
    }
}

// Records of one sort, with few places and with many.
fn sizes<R: Record + Drop, F: Fn(usize) -> Result<R, AllocError>>(
    rt: &impl Abort,
    made: F,
) -> Result<(), Fail>
    requires { F.IsAlwaysCallable made }
{
    for places in [0, 1, 40, 300, 512] {
        let mut book = made(places)?;
        signings(rt, &mut book, 2_463_534_242, places);
    }
    Ok(())
}

#[test]
fn lists(rt: HostRuntime) -> Result<(), Fail> {
    sizes(&rt, |places| ListRecord::new(rt.alloc(), places))
}

#[test]
fn sheets(rt: HostRuntime) -> Result<(), Fail> {
    sizes(&rt, |places| SheetRecord::new(rt.alloc(), places))
}
