// Letters as lines: one cutter and one writer for all kinds.
ghost use Rattle.std.specs.Prelude.{◌≡◌, ◌+◌, ◌*◌, ◌≤◌, true, [], ◌++◌, length, is_ok};
ghost use Rattle.hexadecimal.specs.Hex.{digits};
ghost use Rattle.letters.specs.Layout.{code_at, kind_of, line_of, size_of};
ghost use Rattle.arrayvec.specs.ArrayVec.{array_vec_len};
ghost use Rattle.letters.specs.Reading.{OnlyLine, Read, ReadsBack, Sole, Written, in_frame};

use crate::body::LetterKind;
use crate::field::{Field, Fields, LineText};
use crate::kind::{Kind, UnknownCode};
use crate::letter::{Ack, Done, Letter, Send, Skip, SkipShare, ViewChange};
use lines::damage::{Damage, Layer};
use lines::sound::SoundText;
use refusals::Refusal;

// The characters of the longest letter's line, a VIEW-CHANGE: a buffer of this length takes any line.
pub const LONGEST_LINE: usize = 104;

// Damage of the frame at this column.
fn in_frame(column: u16) -> Damage
    ensures { result ≡ in_frame column }
{
    Damage {
        layer: Layer::Frame,
        column,
    }
}

// An unknown code is damage at its own column.
impl From<UnknownCode> for Damage {
    ghost from_gives = { λ _ damage. damage ≡ in_frame 1 };

    fn from(_: UnknownCode) -> Damage {
        in_frame(1)
    }
}

// The frame of this text is damaged one past its end.
fn past_end(text: SoundText) -> Damage
    ensures { result ≡ in_frame (length text.entry.text.now + 1) }
{
    in_frame(text.text().len() as u16 + 1)
}

// Cuts the text of a letter of the kind, of which the code was read.
fn cut<K: LetterKind>(text: SoundText, mut fields: Fields) -> Result<Letter, Damage>
    requires { text.text.now ≡ digits 2 (code_at K.kind) ++ fields.rest.now }
    ensures { Read text.entry.text.now result }
{
    if text.text().len() != 2 * K::LENGTH {
        return Err(past_end(text));
    }
    Ok(Letter {
        sender: u8::read(&mut fields),
        view: u16::read(&mut fields),
        body: K::read(&mut fields).into(),
    })
}

// Cuts a sound text by its code.
fn cut_coded(text: SoundText) -> Result<Letter, Damage>
    ensures { Read text.entry.text.now result }
{
    let mut fields = Fields::from(text);
    if fields.rest.len() < 2 {
        return Err(past_end(text));
    }
    match Kind::try_from(u8::read(&mut fields))? {
        Kind::Send => cut::<Send>(text, fields),
        Kind::Ack => cut::<Ack>(text, fields),
        Kind::Done => cut::<Done>(text, fields),
        Kind::SkipShare => cut::<SkipShare>(text, fields),
        Kind::Skip => cut::<Skip>(text, fields),
        Kind::ViewChange => cut::<ViewChange>(text, fields),
    }
}

// Reads a line through both layers.
fn read_line(line: &[u8]) -> Result<Letter, Damage>
    ensures { Read line.now result }
{
    cut_coded(SoundText::try_from(line)?)
}

impl Letter {
    // Reads a line, given without its end, as a letter.
    pub fn read(line: &[u8]) -> Result<Letter, Damage>
        ensures read { Read line.now result }
        ensures sole { Sole line.now result }
        ensures only { OnlyLine line.now result }
        ensures back { ReadsBack line.now result }
    {
        read_line(line)
    }

    // Puts the letter's line, without its end, into an empty one. Lent and not handed back, so that it is
    // not copied once more.
    fn compose(&self, line: &mut LineText)
        requires { line.old.items ≡ [] }
        ensures text { line.new.items ≡ line_of self.now }
        ensures len { array_vec_len line.new ≡ 2 * size_of (kind_of self.now.body) }
    {
        self.body.code().write(line);
        self.sender.write(line);
        self.view.write(line);
        self.body.write(line);
    }

    // Writes the letter as a line, without its end, at the front of a buffer, and says how long it is.
    #[tactic(auto, using(crate::proofs::Frames::line_long))]
    pub fn write(&self, out: &mut [u8]) -> Result<usize, Refusal>
        ensures written { Written (line_of self.now) out.old out.new result }
        ensures room { 104 ≤ length out.old → is_ok result ≡ true }
    {
        let length = self.body.kind().characters();
        if out.len() < length {
            return Err(Refusal::BufferTooShort);
        }
        let mut line = LineText::new();
        self.compose(&mut line);
        out[..line.len()].copy_from_slice(&line);
        Ok(line.len())
    }
}
