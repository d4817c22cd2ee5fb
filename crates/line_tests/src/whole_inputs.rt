// Whole inputs: where lines end, what they are and their numbers, by the reader and by the intake.
use lines::line::Line;
use reader::input::Reader;
use reader::intake::{Intake, Progress};
use std::process::Abort;
use std::test::Fail;

// What a line is, with its number and its part's length or column.
#[derive(Clone, Copy, Debug, PartialEq, Eq)]
enum Seen {
    Note(u16, usize),
    Frame(u16, usize),
    Damaged(u16, u16),
}

fn looked_at(line: Line) -> Seen {
    match line {
        Line::Note { number, part } => Seen::Note(number, part.len()),
        Line::Frame { number, part } => Seen::Frame(number, part.len()),
        Line::Damaged { number, column, .. } => Seen::Damaged(number, column),
    }
}

// The reader hands out these lines and no more.
fn reads(rt: &impl Abort, input: &[u8], wanted: &[Seen]) {
    let seen = Reader::new(input).map(looked_at);
    assert!(rt; seen.eq(wanted.iter().copied()));
}

// The intake hands out these lines and no more.
fn takes(rt: &impl Abort, input: &[u8], wanted: &[Seen]) {
    let mut intake = Intake::new();
    let mut wanted = wanted.iter().copied();
    for byte in input {
        if intake.push(*byte) == Progress::Ended {
            assert_eq!(rt; wanted.next(), Some(looked_at(intake.line())));
        }
    }
    if intake.is_open() {
        assert_eq!(rt; wanted.next(), Some(looked_at(intake.line())));
    }
    assert_eq!(rt; wanted.next(), None);
}

fn lists(rt: &impl Abort, input: &[u8], wanted: &[Seen]) {
    reads(rt, input, wanted);
    takes(rt, input, wanted);
}

#[test]
fn ends(rt: HostRuntime) {
    lists(&rt, b"", &[]);
    lists(&rt, b"\n", &[Seen::Note(1, 0)]);
    lists(&rt, b"\n\n", &[Seen::Note(1, 0), Seen::Note(2, 0)]);
    lists(&rt, b"14", &[Seen::Frame(1, 2)]);
    lists(&rt, b"14\n", &[Seen::Frame(1, 2)]);
    lists(&rt, b"\n14", &[Seen::Note(1, 0), Seen::Frame(2, 2)]);
    lists(
        &rt,
        b"14\n\n;\n",
        &[Seen::Frame(1, 2), Seen::Note(2, 0), Seen::Note(3, 1)],
    );
}

#[test]
fn sorts(rt: HostRuntime) {
    lists(&rt, b"; x\xff\x00\r\n", &[Seen::Note(1, 6)]);
    lists(&rt, b" ;\n", &[Seen::Damaged(1, 1)]);
    lists(&rt, b"\x00\n", &[Seen::Damaged(1, 1)]);
    lists(&rt, b"14\r\n", &[Seen::Damaged(1, 3)]);
    lists(&rt, b"1\n", &[Seen::Damaged(1, 2)]);
    lists(
        &rt,
        b"14\nff0\n1g\xff",
        &[Seen::Frame(1, 2), Seen::Damaged(2, 4), Seen::Damaged(3, 2)],
    );
}

#[test]
fn long_lines(rt: HostRuntime) {
    let mut text = [b'0'; 514];
    lists(&rt, &text[0..511], &[Seen::Damaged(1, 512)]);
    lists(&rt, &text[0..512], &[Seen::Frame(1, 512)]);
    lists(&rt, &text[0..513], &[Seen::Damaged(1, 513)]);
    lists(&rt, &text, &[Seen::Damaged(1, 513)]);
    text[0] = b';';
    lists(&rt, &text[0..512], &[Seen::Note(1, 512)]);
    lists(&rt, &text[0..513], &[Seen::Damaged(1, 513)]);
    lists(&rt, &text, &[Seen::Damaged(1, 513)]);
    text[513] = b'\n';
    text[512] = b'\n';
    lists(&rt, &text, &[Seen::Note(1, 512), Seen::Note(2, 0)]);
}

#[test]
fn at_most_65535_lines(rt: HostRuntime) -> Result<(), Fail> {
    let input = vec![in rt.alloc(); b'\n'; 65_537]?;
    let numbers = Reader::new(input.as_slice()).map(|line| line.number());
    assert!(rt; numbers.eq(1..=65_535));
    let mut intake = Intake::new();
    let (lines, more) = input.split_at(65_535);
    assert!(rt;
        lines
            .iter()
            .all(|byte| intake.push(*byte) == Progress::Ended)
    );
    assert_eq!(rt; more.len(), 2);
    assert!(rt; more.iter().all(|byte| intake.push(*byte) == Progress::Past));
    Ok(())
}

#[test]
fn rest_is_handed_on(rt: HostRuntime) {
    let mut reader = Reader::new(b"14\n; a note\nff");
    assert!(rt; reader.next().is_some());
    assert_eq!(rt; reader.rest(), b"; a note\nff".as_slice());
    assert!(rt; reader.next().is_some());
    assert!(rt; reader.next().is_some());
    assert_eq!(rt; reader.rest(), b"".as_slice());
    assert!(rt; reader.next().is_none());
}
