// One line at a time: each kind's worked example both ways, and damaged lines of every sort.
use letters::letter::{Ack, Body, Done, Holding, Letter, Send, Skip, SkipShare, ViewChange};
use letters::line::LONGEST_LINE;
use lines::damage::{Damage, Layer};
use refusals::Refusal;
use std::process::Abort;
use std::test::Fail;

// The letter writes this line, and the line reads as this letter.
fn both_ways(rt: &impl Abort, letter: Letter, line: &[u8]) -> Result<(), Fail> {
    let mut out = [0; LONGEST_LINE];
    let n = letter.write(&mut out)?;
    assert!(rt; n <= out.len());
    assert_eq!(rt; &out[0..n], line);
    assert_eq!(rt; Letter::read(line)?, letter);
    Ok(())
}

fn holding(edition: u64, mask: u64) -> Holding {
    Holding { edition, mask }
}

#[test]
fn six_kinds(rt: HostRuntime) -> Result<(), Fail> {
    let send = Send {
        step: 1,
        edition: 98,
        key_view: 1,
        mask: 7,
    };
    let ack = Ack {
        lead: 0,
        step: 4,
        edition: 98,
    };
    let done = Done {
        edition: 195,
        mask: 0x8000_0000_0000_000b,
    };
    let change = ViewChange {
        key: holding(98, 7),
        lock: holding(98, 11),
        commit: holding(0, 0),
    };
    let examples: [(u8, u16, Body, &[u8]); 7] = [
        (
            3,
            2,
            Body::Send(send),
            b"1103000201000000000000006200010000000000000007",
        ),
        (1, 1, Body::Ack(ack), b"1201000100040000000000000062"),
        (
            63,
            1000,
            Body::Done(done),
            b"133f03e800000000000000c3800000000000000b",
        ),
        (2, 1, Body::SkipShare(SkipShare), b"14020001"),
        (
            255,
            65_535,
            Body::Skip(Skip { mask: u64::MAX }),
            b"15ffffffffffffffffffffff",
        ),
        (
            1,
            1,
            Body::Skip(Skip { mask: 7 }),
            b"150100010000000000000007",
        ),
        (
            0,
            1,
            Body::ViewChange(change),
            b"16000001000000000000006200000000000000070000000000000062000000000000000b00000000000000000000000000000000",
        ),
    ];
    for (sender, view, body, line) in examples {
        both_ways(&rt, Letter { sender, view, body }, line)?;
    }
    Ok(())
}

fn damaged(rt: &impl Abort, line: &[u8], layer: Layer, column: u16) {
    assert_eq!(rt; Letter::read(line), Err(Damage { layer, column }));
}

#[test]
fn damaged_text(rt: HostRuntime) {
    damaged(&rt, b"05zz", Layer::Text, 3);
    damaged(&rt, b"g", Layer::Text, 1);
    damaged(&rt, b"1402000", Layer::Text, 8);
    damaged(&rt, b"1402000A", Layer::Text, 8);
    damaged(&rt, b"14020001\r", Layer::Text, 9);
    damaged(&rt, b"14\x0020001", Layer::Text, 3);
    damaged(&rt, b"\xff4020001", Layer::Text, 1);
    damaged(&rt, b"14020 01", Layer::Text, 6);
    damaged(&rt, b"; a note", Layer::Text, 1);
}

#[test]
fn damaged_frames(rt: HostRuntime) {
    damaged(&rt, b"", Layer::Frame, 1);
    damaged(&rt, b"10020001", Layer::Frame, 1);
    damaged(&rt, b"17020001", Layer::Frame, 1);
    damaged(&rt, b"14", Layer::Frame, 3);
    damaged(&rt, b"140200", Layer::Frame, 7);
    damaged(&rt, b"1402000100", Layer::Frame, 11);
    damaged(&rt, b"12010001000400000000000000", Layer::Frame, 27);
    damaged(&rt, b"120100010004000000000000006200", Layer::Frame, 31);
}

#[test]
fn long_lines(rt: HostRuntime) {
    let zeros = [b'0'; 514];
    damaged(&rt, &zeros[0..511], Layer::Text, 512);
    damaged(&rt, &zeros[0..512], Layer::Frame, 1);
    damaged(&rt, &zeros[0..513], Layer::Text, 513);
    damaged(&rt, &zeros, Layer::Text, 513);
    let mut wrong = zeros;
    wrong[513] = b'x';
    damaged(&rt, &wrong, Layer::Text, 513);
    wrong[512] = b'x';
    damaged(&rt, &wrong, Layer::Text, 513);
    wrong[511] = b'x';
    damaged(&rt, &wrong, Layer::Text, 512);
}

#[test]
fn buffers(rt: HostRuntime) {
    let letter = Letter {
        sender: 2,
        view: 1,
        body: Body::SkipShare(SkipShare),
    };
    let mut short = [b'-'; 7];
    assert_eq!(rt; letter.write(&mut short), Err(Refusal::BufferTooShort));
    assert_eq!(rt; short.as_slice(), b"-------".as_slice());
    let mut exact = [b'-'; 8];
    assert_eq!(rt; letter.write(&mut exact), Ok(8));
    assert_eq!(rt; exact.as_slice(), b"14020001".as_slice());
    let mut longer = [b'-'; 10];
    assert_eq!(rt; letter.write(&mut longer), Ok(8));
    assert_eq!(rt; longer.as_slice(), b"14020001--".as_slice());
}

#[test]
fn refusals_are_numbered(rt: HostRuntime) {
    assert_eq!(rt; Refusal::BadOpening.number(), 1);
    assert_eq!(rt; Refusal::NotCertified.number(), 16);
    assert_eq!(rt; Refusal::BufferTooShort.number(), 19);
    assert!(rt; Refusal::RollFull != Refusal::RecordFull);
}
