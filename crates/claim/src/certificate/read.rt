// Reading a certificate: CLAIM, the claim W, a pair for each row, END.
ghost use Rattle.std.specs.Prelude.{◌≡◌, ◌+◌, ◌*◌, ◌≤◌, length, drop};
ghost use Rattle.std.specs.Simd.{first_chunks};
ghost use Rattle.words.specs.Words.{fields, top_field};
ghost use Rattle.words.specs.Reads.{Reads};
ghost use Rattle.claim.specs.Parts.{HighRead, ScaleRead, ClaimRead, PairRead, EndRead, CertificateRead};

use crate::amount::Cycles;
use crate::certificate::Certificate;
use crate::fault::ClaimFault;
use crate::scaled::Denominator;
use words::reader::Reader;
use words::refusal::WordFault;
use words::word::{Kind, Payload};

// The magnitude of a HIGH and a LOW.
pub(crate) fn magnitude(high: Payload, low: Payload) -> u64
    ensures { result ≡ fields 28 (top_field high.0) low.0 }
{
    u64::from(high.top()) * 0x1000_0000 + u64::from(low.0)
}

// The HIGH that is due here. END in its place is told apart from other kinds.
fn read_high(reader: &mut Reader) -> Result<Payload, ClaimFault>
    ensures { Reads HighRead reader.old result reader.new }
{
    let at = reader.place();
    let word = reader.next()?;
    // Kept: three kinds of word, told apart by a `match` more plainly than by closures.
    match word.kind {
        Kind::High if word.payload.unused() == 0 => Ok(word.payload),
        Kind::High => Err(ClaimFault::WrongSign(at)),
        Kind::End => Err(ClaimFault::WrongPairs(at)),
        _ => Err(WordFault::NotDue(at).into()),
    }
}

// The denominator, in a CLAIM.
fn read_scale(reader: &mut Reader) -> Result<Denominator, ClaimFault>
    ensures { Reads ScaleRead reader.old result reader.new }
{
    let at = reader.place();
    let word = reader.due(Kind::Claim)?;
    let scale = Denominator::new(word.payload.0).ok_or(WordFault::OutOfLimit(at))?;
    Ok(scale)
}

// The claim, which is not minus.
fn read_claim(reader: &mut Reader) -> Result<Cycles, ClaimFault>
    ensures { Reads ClaimRead reader.old result reader.new }
{
    let at = reader.place();
    let high = read_high(reader)?;
    if high.minus() {
        return Err(ClaimFault::WrongSign(at));
    }
    let low = reader.due(Kind::Low)?;
    Ok(Cycles(magnitude(high, low.payload)))
}

// The pair of a row, which is not minus zero.
fn read_pair(reader: &mut Reader) -> Result<(), ClaimFault>
    ensures { Reads PairRead reader.old result reader.new }
{
    let at = reader.place();
    let high = read_high(reader)?;
    let low = reader.due(Kind::Low)?;
    if high.minus() && magnitude(high, low.payload) == 0 {
        return Err(ClaimFault::WrongSign(at));
    }
    Ok(())
}

// The END after the last pair. HIGH in its place is told apart from other kinds.
fn read_end(reader: &mut Reader) -> Result<(), ClaimFault>
    ensures { EndRead reader.old.words.now reader.old.at result }
{
    let at = reader.place();
    let word = reader.next()?;
    // Kept: three kinds of word, told apart by a `match` more plainly than by closures.
    match word.kind {
        Kind::End => Ok(reader.close(at, word.payload)?),
        Kind::High => Err(ClaimFault::WrongPairs(at)),
        _ => Err(WordFault::NotDue(at).into()),
    }
}

// The pairs of so many rows, after CLAIM and W.
fn pairs(words: &[u32], rows: usize) -> &[[u32; 2]]
    requires { 3 + 2 * rows ≤ length words.now }
    ensures listed { result.now ≡ first_chunks 2 rows (drop 3 words.now) }
    ensures length { length result.now ≡ rows }
{
    let (pairs, _) = words[3..3 + 2 * rows].as_chunks::<2>();
    pairs
}

// The certificate for so many rows whose words these are, or the first fault.
pub(crate) fn read(words: &[u32], rows: usize) -> Result<Certificate<'_>, ClaimFault>
    ensures { CertificateRead rows words.now result }
{
    let mut reader = Reader::new(words);
    let scale = read_scale(&mut reader)?;
    let claim = read_claim(&mut reader)?;
    // Kept: after `try_for_each` nothing is known of the reader that its closure moves on.
    for _row in 0..rows {
        read_pair(&mut reader)?;
    }
    read_end(&mut reader)?;
    Ok(Certificate {
        claim,
        scale,
        pairs: pairs(words, rows),
    })
}
