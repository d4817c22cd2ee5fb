// How many lines there were of each sort.
ghost use Rattle.std.specs.Prelude.{◌≡◌, ◌+◌, ◌<◌, []};
ghost use Rattle.listing.specs.Tallies.{Adds, Counted, Tallies, letters_in, lines_in};

use crate::entry::Entry;
use letters::kind::Kind;
use lines::damage::Layer;
use reader::input::LAST;

// Letters by kind, notes, and lines damaged in their text or in their frame. Fields and no array by
// kind: each is public, and the definitions name it.
#[derive(Clone, Copy, Default)]
pub struct Tally {
    pub send: u16,
    pub ack: u16,
    pub done: u16,
    pub skip_share: u16,
    pub skip: u16,
    pub view_change: u16,
    pub notes: u16,
    pub text: u16,
    pub frame: u16,
}

impl Tally {
    // Nothing counted.
    pub fn new() -> Tally
        ensures { Tallies [] result }
    {
        Tally::default()
    }

    // How many letters were counted.
    pub fn letters(&self) -> u32
        ensures { result ≡ letters_in self.now }
    {
        u32::from(self.send)
            + u32::from(self.ack)
            + u32::from(self.done)
            + u32::from(self.skip_share)
            + u32::from(self.skip)
            + u32::from(self.view_change)
    }

    // How many damaged lines were counted.
    pub fn damaged(&self) -> u32
        ensures { result ≡ self.now.text + self.now.frame }
    {
        u32::from(self.text) + u32::from(self.frame)
    }

    // How many lines were counted.
    pub fn lines(&self) -> u32
        ensures { result ≡ lines_in self.now }
    {
        self.letters() + u32::from(self.notes) + u32::from(self.text) + u32::from(self.frame)
    }

    // One entry more.
    fn add(&mut self, entry: Entry)
        requires { lines_in self.old < 65535 }
        ensures { Adds entry self.old self.new }
    {
        match entry {
            Entry::Note => self.notes += 1,
            Entry::Letter(letter) => match letter.body.kind() {
                Kind::Send => self.send += 1,
                Kind::Ack => self.ack += 1,
                Kind::Done => self.done += 1,
                Kind::SkipShare => self.skip_share += 1,
                Kind::Skip => self.skip += 1,
                Kind::ViewChange => self.view_change += 1,
            },
            Entry::Damaged(damage) => match damage.layer {
                Layer::Text => self.text += 1,
                Layer::Frame => self.frame += 1,
            },
        }
    }

    // Counts an entry, and says whether it did: no more than 65,535 are counted. A plain no, since there
    // is one reason for it.
    pub fn count(&mut self, entry: Entry) -> bool
        ensures { Counted self.old entry self.new result }
    {
        if self.lines() >= u32::from(LAST) {
            return false;
        }
        self.add(entry);
        true
    }
}
