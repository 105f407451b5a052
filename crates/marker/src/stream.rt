// The words after the sheet: certificates, and words that are not due.
ghost use Rattle.std.specs.Prelude.{◌≡◌, ◌*◌, ◌≤◌, length, drop};
ghost use Rattle.sheet.specs.View.{view};
ghost use Rattle.claim.specs.ReadCertificate.{judged};
ghost use Rattle.marker.specs.Text.{Appended, Printed};
ghost use Rattle.line.specs.Lines.{claim_text};
ghost use Rattle.marker.specs.Stream.{next as next_of, stream as stream_of, Done};

use crate::input::first_word;
use crate::report::Marker;
use crate::text::append;
use claim::judge::judge;
use line::lines::{Accepted, Item, Refused};
use std::alloc::AllocError;
use words::refusal::WordFault;
use words::word::Kind;

impl Marker {
    // Judges the certificate that was taken, and appends its line.
    fn certificate(&self, text: &mut Vec<u8>) -> Result<(), AllocError>
        ensures { Appended text.old.items (claim_text (judged (view self.now.room.sheet) self.now.words.words.items)) result text.new.items }
    {
        let answer = judge(self.room.sheet(), self.words.as_slice())
            .map(|cycles| Accepted { cycles: cycles.0 })
            .map_err(|fault| Refused::new(Item::Claim, &fault));
        append(text, &answer)
    }

    // Does what the next word asks, at its place in the input, and answers how many words it takes; none where reading stops.
    fn next(
        &mut self,
        bytes: &[u8],
        place: usize,
        text: &mut Vec<u8>,
    ) -> Result<Option<usize>, AllocError>
        ensures done { Done (next_of (view self.old.room.sheet) place bytes.now) text.old.items result text.new.items }
        ensures room { self.new.room ≡ self.old.room }
    {
        let Some(word) = first_word(bytes) else {
            if !bytes.is_empty() {
                append(
                    text,
                    &Refused::new(Item::Stream, &WordFault::EndsEarly(place)),
                )?;
            }
            return Ok(None);
        };
        // Kept: the kinds are a closed set, so a `match` says which step to run more plainly than closures would.
        match Kind::from(word) {
            Kind::Claim => {
                self.words.take(bytes);
                self.certificate(text)?;
                Ok(Some(self.words.len()))
            }
            Kind::Start | Kind::Step | Kind::Finish => Ok(None),
            _ => {
                append(text, &Refused::new(Item::Stream, &WordFault::NotDue(place)))?;
                Ok(Some(1))
            }
        }
    }

    // Appends the lines of the words from a place in the input on.
    pub(crate) fn stream(
        &mut self,
        input: &[u8],
        start: usize,
        text: &mut Vec<u8>,
    ) -> Result<(), AllocError>
        requires { 4 * start ≤ length input.now }
        ensures printed { Printed text.old.items (stream_of (view self.old.room.sheet) start (drop (4 * start) input.now)) result text.new.items }
        ensures room { self.new.room ≡ self.old.room }
    {
        let mut place = start;
        while let Some(taken) = self.next(&input[4 * place..], place, text)? {
            place += taken;
        }
        Ok(())
    }
}
