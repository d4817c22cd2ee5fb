// Where a line is damaged. Layer 1 is its text, layer 2 its frame.
ghost use Rattle.std.specs.Prelude.{◌≡◌, MatchOption, Some};
ghost use Rattle.lines.specs.Damage.{DamagedAt, Sound, damage_text, layer_number, layer_word};

use crate::sound::SoundText;
use std::fmt;

// The most characters a line has.
pub const LONGEST: usize = 512;

// The layer of a line in which damage is found: its text is judged before its frame.
#[derive(Clone, Copy, Debug, PartialEq, Eq)]
pub enum Layer {
    Text = 1,
    Frame = 2,
}

impl Layer {
    // The number by which a layer is known outside the program.
    pub fn number(self) -> u8
        ensures { result ≡ layer_number self }
    {
        self as u8
    }

    // Its name, as rows give it.
    pub fn name(self) -> &'static str
        ensures { result.now ≡ layer_word self }
    {
        match self {
            Layer::Text => "text",
            Layer::Frame => "frame",
        }
    }
}

impl fmt::Display for Layer {
    ghost output = { λ layer. Some (layer_word layer) };

    fn fmt<W: fmt::Write>(&self, f: &mut fmt::Formatter<W>) -> fmt::Result {
        f.pad(self.name())
    }
}

// Where a line is damaged: the layer, and the column, counted from 1.
#[derive(Clone, Copy, Debug, PartialEq, Eq)]
pub struct Damage {
    pub layer: Layer,
    pub column: u16,
}

impl fmt::Display for Damage {
    ghost output = { λ damage. Some (damage_text damage) };

    fn fmt<W: fmt::Write>(&self, f: &mut fmt::Formatter<W>) -> fmt::Result {
        let number = self.layer.number();
        write!(f, "layer {number} ({}), column {}", self.layer, self.column)
    }
}

// The least column at which a line's text is damaged, if any is.
pub fn text_column(line: &[u8]) -> Option<u16>
    ensures { MatchOption result (Sound line.now) (λ column. DamagedAt line.now column) }
{
    match SoundText::try_from(line) {
        Ok(_) => None,
        Err(damage) => Some(damage.column),
    }
}
