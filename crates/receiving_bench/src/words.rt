// Words of eight hex digits, each behind a space.
ghost use Rattle.std.specs.Counts.{IsPrefixLen};

use crate::numbers::digits;

// How many bytes a buffer for a datagram or a recording has.
pub(crate) const BUFFER: usize = 4096;

// How many characters a word has, with its space.
const WORD: usize = 9;

// The most characters of the words that a buffer has room for.
const MOST_WORDS: usize = BUFFER / 4 * WORD;

// The bytes of a word.
fn bytes_of(word: &[u8]) -> Option<[u8; 4]> {
    let hex = word.strip_prefix(b" ")?;
    let (value, []) = digits(hex, 16, 8)? else {
        return None;
    };
    (hex.len() == 8).then_some(value.to_be_bytes())
}

// Whether a text is nothing but words, of which a buffer has room for all.
pub(crate) fn are_words(text: &[u8]) -> bool {
    text.len() <= MOST_WORDS && text.chunks(WORD).all(|word| bytes_of(word).is_some())
}

// Puts the bytes of a word to a place, as far as they have room there.
fn put_word(bytes: [u8; 4], place: &mut [u8]) {
    for (to, from) in place.iter_mut().zip(bytes) {
        *to = from;
    }
}

// Puts the bytes of words to the front of a buffer, as far as they have room there. Answers how many.
pub(crate) fn put_bytes(words: &[u8], buffer: &mut [u8]) -> usize
    ensures { IsPrefixLen result buffer.new }
{
    let room = buffer.len();
    for (place, word) in buffer.chunks_mut(4).zip(words.chunks(WORD)) {
        let Some(bytes) = bytes_of(word) else {
            break;
        };
        put_word(bytes, place);
    }
    room.min(words.len() / WORD * 4)
}
