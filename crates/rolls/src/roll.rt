// The roll: every letter, in the order in which they were written.
ghost use Rattle.std.specs.Prelude.{◌≤◌, vec_len, vec_capacity};

use letters::letter::Letter;

mod calls;

// The roll (the field's word: message log) keeps every letter, numbered from 0 as written. The memory
// for all of them is reserved when it is made; the number of places stands beside them, since a Vec
// may have more capacity than was asked for. Records do likewise: a type for all would hide the fields
// that the contracts of each name.
#[derive(Drop)]
pub struct Roll {
    letters: Vec<Letter>,
    places: usize,
    ghost room: { (vec_len letters ≤ places) × (places ≤ vec_capacity letters) },
    ghost numbered: { places ≤ 65535 },
}
