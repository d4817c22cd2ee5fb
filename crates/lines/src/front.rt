// A line seen through its first 512 characters.
ghost use Rattle.std.specs.Prelude.{◌≡◌, ℕ, ◌≤◌, List, length, MatchResult};
ghost use Rattle.lines.specs.Damage.{Fronts, FrontApplies, FrontDamagedAt};
ghost use Rattle.lines.specs.Judged.{Judged};
ghost use Rattle.lines.specs.declared.damage.Layer.{Layer};

use crate::damage::{Damage, LONGEST, Layer};
use crate::line::{Line, is_note};
use crate::sound::SoundText;

// The column past the longest line.
const PAST: u16 = LONGEST as u16 + 1;

// The first 512 characters of a line, and whether it has more: there are characters either way, so an
// Option would not say it.
#[derive(Clone, Copy)]
pub(crate) struct Front<'a> {
    pub(crate) seen: &'a [u8],
    pub(crate) longer: bool,
    ghost few: { length seen.now ≤ 512 },
}

// The text is damaged at this column.
fn in_text(column: u16) -> Damage
    ensures { (result.layer ≡ Layer.Text) × (result.column ≡ column) }
{
    Damage {
        layer: Layer::Text,
        column,
    }
}

impl<'a> Front<'a> {
    // What is seen of this line.
    #[tactic(auto, using(std::proofs::lemmas::List::take_min))]
    pub(crate) fn of(line: &'a [u8]) -> Front<'a>
        ensures { Fronts result.seen.now result.longer line.now }
    {
        Front {
            seen: &line[..LONGEST.min(line.len())],
            longer: line.len() > LONGEST,
        }
    }

    // The text, if it is sound, or the least column at which it is damaged.
    pub(crate) fn sound(self) -> Result<SoundText<'a>, Damage>
        ensures { MatchResult result (λ part. (part.text.now ≡ self.entry.seen.now) × ((column : ℕ) → FrontApplies self.entry.seen.now self.entry.longer column → ⊥)) (λ damage. (damage.layer ≡ Layer.Text) × FrontDamagedAt self.entry.seen.now self.entry.longer damage.column) }
    {
        let wrong = |byte: &u8| hexadecimal::value(*byte).is_none();
        if let Some(i) = self.seen.iter().position(wrong) {
            return Err(in_text(i as u16 + 1));
        }
        if self.longer {
            return Err(in_text(PAST));
        }
        if self.seen.len() % 2 == 1 {
            return Err(in_text(self.seen.len() as u16 + 1));
        }
        Ok(SoundText { text: self.seen })
    }

    // What the line is, under this number.
    pub(crate) fn judge(self, number: u16) -> Line<'a>
        ensures { (line : List ℕ) → Fronts self.entry.seen.now self.entry.longer line → Judged line number result }
    {
        let part = self.seen;
        if !is_note(part) {
            return match self.sound() {
                Ok(_) => Line::Frame { number, part },
                Err(damage) => Line::Damaged {
                    number,
                    column: damage.column,
                    part,
                },
            };
        }
        if self.longer {
            return Line::Damaged {
                number,
                column: PAST,
                part,
            };
        }
        Line::Note { number, part }
    }
}
