// A text that is known to be sound.
ghost use Rattle.std.specs.Prelude.{◌≡◌, ◌≤◌, ◌%◌, length, MatchResult};
ghost use Rattle.std.specs.List.{AllByRecursion};
ghost use Rattle.hexadecimal.specs.Hex.{Hex};
ghost use Rattle.lines.specs.Damage.{DamagedAt, Sound};
ghost use Rattle.lines.specs.declared.damage.Layer.{Layer};

use crate::damage::Damage;
use crate::front::Front;

// A text in which no column is damaged.
#[derive(Clone, Copy, Debug)]
pub struct SoundText<'a> {
    pub(crate) text: &'a [u8],
    ghost sound: { Sound text.now },
}

impl<'a> SoundText<'a> {
    // The text: at most 512 characters, all hexadecimal, and an even number of them.
    pub fn text(self) -> &'a [u8]
        ensures value { result.now ≡ self.entry.text.now }
        ensures sound { Sound result.now }
        ensures few { length result.now ≤ 512 }
        ensures even { length result.now % 2 ≡ 0 }
        ensures hexadecimal { AllByRecursion Hex result.now }
    {
        self.text
    }
}

// A text, if it is sound, or where it is damaged: the least column.
impl<'a> TryFrom<&'a [u8]> for SoundText<'a> {
    type Error = Damage;

    ghost try_from_gives = { λ text r. MatchResult r (λ sound. sound.text.now ≡ text.now) (λ damage. (damage.layer ≡ Layer.Text) × DamagedAt text.now damage.column) };

    fn try_from(text: &'a [u8]) -> Result<SoundText<'a>, Damage> {
        Front::of(text).sound()
    }
}
