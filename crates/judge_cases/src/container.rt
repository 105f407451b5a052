// The container of the cases: words, most significant byte first. A case is two lists, each with its number of words before it.
ghost use Rattle.std.specs.Prelude.{◌≡◌, ◌*◌, ◌<◌, length, IfSome, IfOk, vec_len, MatchOption};
ghost use Rattle.judge_cases.specs.Container.{words_of, Begins, Cut};

use anyhow::ensure;
use std::alloc::Global;

// The words of the bytes, which must be whole.
// Kept: the benchmark has one of its own, which leaves a cut word out; each is one chain of the library's methods.
pub(crate) fn words_of(heap: Global, bytes: &[u8]) -> anyhow::Result<Vec<u32>>
    ensures items { IfOk result (λ words. words.items ≡ words_of bytes.now) }
    ensures len { IfOk result (λ words. 4 * vec_len words ≡ length bytes.now) }
{
    let (chunks, rest) = bytes.as_chunks::<4>();
    ensure!(rest.is_empty(), "the last word is cut short");
    Ok(
        chunks
            .iter()
            .map(|chunk| u32::from_be_bytes(*chunk))
            .collect(heap)?,
    )
}

// The first list, and what follows it; none where the words end before it does.
// Kept: `mark_cases` takes bytes, whose number stands in four of them; each is two calls of the library.
pub(crate) fn take_list(words: &[u32]) -> Option<(&[u32], &[u32])>
    ensures cases { MatchOption result (Cut words.now) (λ x. Begins words.now x.0.now x.1.now) }
    ensures bound { IfSome result (λ x. length x.1.now < length words.now) }
{
    let (count, rest) = words.split_first()?;
    rest.split_at_checked(*count as usize)
}
