// The places of the member table: one word marks the places held, its lowest bit the first place.
#![tactic(auto)]

ghost use Rattle.std.specs.Prelude.{◌≡◌};
ghost use Rattle.places.specs.Places.{held_in, lowest_free, holds_place, with_place, without_place};
ghost use Rattle.places.specs.Free.{IsLowestFree};

// How many places there are.
const PLACES: usize = 64;

// How many of the 64 places are held: the word's ones.
pub fn count_held(word: u64) -> u32
    ensures { result ≡ held_in 64 word }
{
    word.count_ones()
}

// The lowest free place, or 64 where none is free: the trailing zeros of the word's complement.
pub fn lowest_free(word: u64) -> u32
    ensures { (result ≡ lowest_free 64 word) × IsLowestFree 64 word result }
{
    (!word).trailing_zeros()
}

// Whether there is such a place, and it is held.
pub fn is_held(word: u64, place: usize) -> bool
    ensures { result ≡ holds_place word place }
{
    place < PLACES && (word >> place) % 2 == 1
}

// The word that marks a place too. It is the same word where the place is held, or there is no such place.
pub fn with_place(word: u64, place: usize) -> u64
    ensures { result ≡ with_place word place }
{
    if place < PLACES {
        word | (1u64 << place)
    } else {
        word
    }
}

// The word that marks a place no more. It is the same word where the place is free, or there is no such place.
pub fn without_place(word: u64, place: usize) -> u64
    ensures { result ≡ without_place word place }
{
    if is_held(word, place) {
        word - (1u64 << place)
    } else {
        word
    }
}
