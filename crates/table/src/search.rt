// Where a number's member stands.
ghost use Rattle.std.specs.Prelude.{◌≡◌, not, ◌&&◌, eqb};
ghost use Rattle.places.specs.Places.{is_free};
ghost use Rattle.table.specs.Members.{place_among};

// Whether the word's first place is held, by a member of this number.
pub(crate) fn is_held_by(word: u64, number: u32, source: u32) -> bool
    ensures { result ≡ (not (is_free word) && eqb number source) }
{
    word % 2 == 1 && number == source
}

// The place of the member with a number, which is held, or behind the last where none has it, among the members' source
// numbers alone: for a caller that keeps these beside its table.
pub fn place_among(held: u64, sources: &[u32], source: u32) -> usize
    ensures { result ≡ place_among source held sources.now }
{
    let mut word = held;
    for (place, number) in sources.iter().enumerate() {
        if is_held_by(word, *number, source) {
            return place;
        }
        word /= 2;
    }
    sources.len()
}
