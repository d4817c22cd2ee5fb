// Lists a night's letters: reads lines from standard input and says in words what each is, where a
// line is damaged, and in the end how many there were of each sort.
#![tactic(auto)]

mod words;

use crate::words::{Damaged, Heading, Listed, Summary};
use lines::line::Line;
use listing::entry::Entry;
use listing::tally::Tally;
use reader::intake::{Intake, Progress};
use std::io;
use std::io::{BufReader, BufWriter, Read, Write};

// Lists a line, and counts it.
fn list<W: Write>(out: &mut W, tally: &mut Tally, line: Line) -> io::Result<()> {
    let number = line.number();
    let entry = Entry::of(line);
    match entry {
        Entry::Note => {}
        Entry::Letter(letter) => {
            let place = tally.letters();
            let row = Listed {
                number,
                place,
                letter,
            };
            writeln!(out, "{row}")?;
        }
        Entry::Damaged(damage) => writeln!(out, "{}", Damaged { number, damage })?,
    }
    tally.count(entry);
    Ok(())
}

fn main(rt: HostRuntime) -> io::Result<()> {
    let mut out = BufWriter::new(rt.alloc(), rt.stdout())?;
    let mut intake = Intake::new();
    let mut tally = Tally::new();
    let mut more = false;
    writeln!(out, "{Heading}")?;
    for byte in BufReader::new(rt.alloc(), rt.stdin())?.bytes() {
        match intake.push(byte?) {
            Progress::Inside => {}
            Progress::Ended => list(&mut out, &mut tally, intake.line())?,
            Progress::Past => {
                more = true;
                break;
            }
        }
    }
    if intake.is_open() {
        list(&mut out, &mut tally, intake.line())?;
    }
    write!(out, "\n{}", Summary { tally, more })?;
    out.flush()
}
