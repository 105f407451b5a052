// Reading a list of words that the caller lends.
ghost use Rattle.std.specs.Prelude.{◌≡◌, ◌+◌, ◌-◌, ◌^◌, ◌<◌, min, ◌++◌, length, drop};
ghost use Rattle.words.specs.Taking.{Takes, TakesDue, Passed, counts_test, ends_test};

use crate::refusal::WordFault;
use crate::word::{Kind, Payload, Word};

// The caller's list and the place of the next word in it. No copy is kept.
#[derive(Drop)]
pub struct Reader<'a> {
    words: &'a [u32],
    at: usize,
}

impl<'a> Reader<'a> {
    pub fn new(words: &'a [u32]) -> Reader<'a>
        ensures { (result.words.now ≡ words.now) × (result.at ≡ 0) }
    {
        Reader { words, at: 0 }
    }

    // The place of the next word.
    pub fn place(&self) -> usize
        ensures { result ≡ self.now.at }
    {
        let place = self.at;
        place
    }

    // Kept: these are clauses of public calls, and speak of the reader before and after.

    // The next word, or that the list has ended.
    pub fn next(&mut self) -> Result<Word, WordFault>
        ensures same { self.new.words ≡ self.old.words }
        ensures takes { Takes self.old.words.now self.old.at result self.new.at }
    {
        let Some(word) = self.words.get(self.at) else {
            return Err(WordFault::EndsEarly(self.at));
        };
        let word = Word::from(*word);
        self.at += 1;
        Ok(word)
    }

    // The next word, which has to be of this kind.
    pub fn due(&mut self, kind: Kind) -> Result<Word, WordFault>
        ensures same { self.new.words ≡ self.old.words }
        ensures takes { TakesDue kind self.old.words.now self.old.at result self.new.at }
    {
        let at = self.at;
        let word = self.next()?;
        if word.kind != kind {
            self.at = at;
            return Err(WordFault::NotDue(at));
        }
        Ok(word)
    }

    // The words that are left.
    pub fn rest(&self) -> &'a [u32]
        ensures left { result.now ≡ drop self.now.at self.now.words.now }
        ensures fits { self.now.at + length result.now < 2 ^ 64 }
    {
        self.words.get(self.at..).unwrap_or(&[])
    }

    // Passes over so many words, or over all that are left.
    pub fn skip(&mut self, n: usize)
        ensures same { self.new.words ≡ self.old.words }
        ensures moves { self.new.at ≡ self.old.at + min n (length self.old.words.now - self.old.at) }
    {
        let left = self.words.len().saturating_sub(self.at);
        self.at += n.min(left);
    }

    // The END at this place counts the words before it.
    pub fn counted(&self, at: usize, count: Payload) -> Result<(), WordFault>
        ensures { Passed (counts_test at count.0) result }
    {
        if count.0 as usize != at {
            return Err(WordFault::WrongEnd(at));
        }
        Ok(())
    }

    // No word is left after END.
    pub fn ended(&self) -> Result<(), WordFault>
        ensures { Passed (ends_test (drop self.now.at self.now.words.now) self.now.at) result }
    {
        if self.at < self.words.len() {
            return Err(WordFault::WrongEnd(self.at));
        }
        Ok(())
    }

    // Closes the list at the END at this place: its count is right, and no word is left after it.
    pub fn close(&self, at: usize, count: Payload) -> Result<(), WordFault>
        ensures { Passed (counts_test at count.0 ++ ends_test (drop self.now.at self.now.words.now) self.now.at) result }
    {
        self.counted(at, count)?;
        self.ended()
    }
}
