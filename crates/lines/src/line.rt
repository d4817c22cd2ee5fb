// One line: where it ends, and what it is.
ghost use Rattle.std.specs.Prelude.{◌≡◌, ◌==◌, Decides, position};
ghost use Rattle.lines.specs.Judged.{IsNote, Judged, number_of};
ghost use Rattle.lines.specs.Lines.{RunsTo, after_line, first_line};

use crate::front::Front;

// A line of an input: its number, counted from 1, and the part of the input it lies in. A note is a
// comment, a frame is sound hexadecimal, and any other line is damaged in its text at a column. A frame
// has a plain part and no SoundText: whoever hands a line over may have made it. Each case borrows its
// part: so the rules have a line.
#[derive(Clone, Copy, Debug)]
pub enum Line<'a> {
    Note {
        number: u16,
        part: &'a [u8],
    },
    Frame {
        number: u16,
        part: &'a [u8],
    },
    Damaged {
        number: u16,
        column: u16,
        part: &'a [u8],
    },
}

// Where the first line of an input ends, if byte 0a ends it.
fn line_end(input: &[u8]) -> Option<usize>
    ensures { result ≡ position (λ byte. byte == 10) input.now }
{
    input.iter().position(|byte| *byte == b'\n')
}

// The first line of an input, up to byte 0a or the end, and what follows it.
pub fn first_line(input: &[u8]) -> (&[u8], &[u8])
    ensures line { result.0.now ≡ first_line input.now }
    ensures rest { result.1.now ≡ after_line input.now }
    ensures rule { RunsTo input.now result.0.now result.1.now }
{
    match line_end(input) {
        Some(end) => (&input[..end], &input[end + 1..]),
        None => (input, &[]),
    }
}

// A note is empty, or starts with a semicolon.
pub(crate) fn is_note(text: &[u8]) -> bool
    ensures { Decides result (IsNote text.now) }
{
    match text {
        [] => true,
        [first, ..] => matches!(char::from(*first), ';'),
    }
}

impl<'a> Line<'a> {
    // What the line with this number and text is.
    pub fn of(number: u16, text: &'a [u8]) -> Line<'a>
        ensures { Judged text.now number result }
    {
        Front::of(text).judge(number)
    }

    // The number of the line.
    pub fn number(&self) -> u16
        ensures { result ≡ number_of self.now }
    {
        match self {
            Line::Note { number, .. } | Line::Frame { number, .. } | Line::Damaged { number, .. } =>
                *number,
        }
    }
}
