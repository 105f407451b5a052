// The words of the input, which are big-endian.
ghost use Rattle.std.specs.Prelude.{◌≡◌, ◌≤◌, length, vec_capacity};
ghost use Rattle.words.specs.Words.{kind, same_kind};
ghost use Rattle.words.specs.declared.word.Kind.TheVariants.{End as END};
ghost use Rattle.marker.specs.Input.{first_word, first_list};
ghost use Rattle.marker.specs.declared.input.TheConstants.{MOST_WORDS};

use std::alloc::{AllocError, Global};
use words::word::Kind;

// The most words that a list may have.
pub(crate) const MOST_WORDS: usize = 4096;

// The word that the bytes begin with.
pub(crate) fn first_word(bytes: &[u8]) -> Option<u32>
    ensures { result ≡ first_word bytes.now }
{
    let chunk = bytes.first_chunk::<4>()?;
    Some(u32::from_be_bytes(*chunk))
}

// Whether a word is END.
fn is_end(word: u32) -> bool
    ensures { result ≡ same_kind (kind word) END }
{
    Kind::from(word) == Kind::End
}

// The words of one list, in memory that is reserved.
// Kept: a type shared with `sheet` would be public, and a public `push` asks for no room; one that answers instead burdens each caller.
#[derive(Drop)]
pub(crate) struct WordList {
    words: Vec<u32>,
    ghost room: { MOST_WORDS ≤ vec_capacity words },
}

impl WordList {
    pub(crate) fn reserve(heap: Global) -> Result<WordList, AllocError> {
        Ok(WordList {
            words: Vec::with_capacity(heap, MOST_WORDS)?,
        })
    }

    // Takes the input's first list: up to its END, the input's end or 4,096 words.
    pub(crate) fn take(&mut self, input: &[u8])
        ensures { self.new.words.items ≡ first_list input.now }
    {
        self.words.clear();
        let (chunks, _) = input.as_chunks::<4>();
        for chunk in chunks.iter().take(MOST_WORDS) {
            let word = u32::from_be_bytes(*chunk);
            self.words.push_reserved(word);
            if is_end(word) {
                return;
            }
        }
    }

    pub(crate) fn as_slice(&self) -> &[u32]
        ensures { result.now ≡ self.now.words.items }
    {
        &self.words
    }

    pub(crate) fn len(&self) -> usize
        ensures { result ≡ length self.now.words.items }
    {
        self.words.len()
    }
}
