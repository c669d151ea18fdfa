//! Which row the last pass of a point had, guessed without a search by its name.

use actions::Name;

/// A row for each of so many places.
const PLACES: usize = 256;

/// At the place of a name the row of the last pass of a point that has that place. That may be another
/// point, so whoever asks compares the names.
#[derive(Debug, Drop)]
pub(crate) struct Guesses {
    rows: [u16; PLACES],
}

// The place of a name. Names that end with different numbers below 256 of as many digits have places
// of their own.
fn place_of(name: &Name) -> u8 {
    match name.text().as_bytes() {
        [.., hundreds, tens, ones] => hundreds
            .wrapping_mul(100)
            .wrapping_add(tens.wrapping_mul(10))
            .wrapping_add(*ones),
        [.., tens, ones] => tens.wrapping_mul(10).wrapping_add(*ones),
        [one] => *one,
        [] => 0,
    }
}

impl Guesses {
    /// The first row at each place.
    pub(crate) fn new() -> Guesses {
        Guesses { rows: [0; PLACES] }
    }

    /// The row at the place of a name.
    pub(crate) fn get(&self, name: &Name) -> u16 {
        self.rows[usize::from(place_of(name))]
    }

    /// Puts a row at the place of a name.
    pub(crate) fn put(&mut self, name: &Name, row: u16) {
        self.rows[usize::from(place_of(name))] = row;
    }
}
