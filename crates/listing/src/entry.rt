// What a line of the input comes to.
ghost use Rattle.std.specs.Prelude.{ℕ, List};
ghost use Rattle.lines.specs.Judged.{Judged};
ghost use Rattle.listing.specs.Entries.{Comes, Entered};

use letters::letter::Letter;
use lines::damage::{Damage, Layer};
use lines::line::Line;

// A note, a letter, or where the line is damaged.
#[derive(Clone, Copy)]
pub enum Entry {
    Note,
    Letter(Letter),
    Damaged(Damage),
}

impl Entry {
    // The entry of a line, read through both layers. A function and no From, so that its two promises
    // have names.
    pub fn of(line: Line) -> Entry
        ensures line { Comes line.entry result }
        ensures text { (text : List ℕ) (n : ℕ) → Judged text n line.entry → Entered text result }
    {
        match line {
            Line::Note { .. } => Entry::Note,
            Line::Damaged { column, .. } => Entry::Damaged(Damage {
                layer: Layer::Text,
                column,
            }),
            Line::Frame { part, .. } => match Letter::read(part) {
                Ok(letter) => Entry::Letter(letter),
                Err(damage) => Entry::Damaged(damage),
            },
        }
    }
}
