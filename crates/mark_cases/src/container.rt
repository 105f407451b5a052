// The container of the cases: the number of bytes of an input as a big-endian word, then its bytes; and so on.
ghost use Rattle.std.specs.Prelude.{◌<◌, length, IfSome, MatchOption};
ghost use Rattle.mark_cases.specs.Container.{Begins, Cut};

// The first input, and what follows it; none where the bytes end before it does.
// Kept: `judge_cases` takes lists, whose number of words stands in one; each is two calls of the library.
pub(crate) fn take_input(bytes: &[u8]) -> Option<(&[u8], &[u8])>
    ensures cases { MatchOption result (Cut bytes.now) (λ x. Begins bytes.now x.0.now x.1.now) }
    ensures bound { IfSome result (λ x. length x.1.now < length bytes.now) }
{
    let (count, rest) = bytes.split_first_chunk::<4>()?;
    rest.split_at_checked(u32::from_be_bytes(*count) as usize)
}
