// The fields of a line: words and numbers.
ghost use Rattle.std.specs.Prelude.{◌≡◌, ◌≤◌, length};
ghost use Rattle.line.specs.Text.{over};
ghost use Rattle.line.specs.Fields.{word_text, field_text};

use crate::decimal::{decimal_length, put_decimal};

// The words that lines are made of.
#[derive(Clone, Copy)]
pub(super) enum Word {
    Accepted,
    At,
    Blocks,
    Claim,
    Columns,
    Edges,
    Finish,
    In,
    LBlocks,
    Line,
    Refused,
    Rows,
    Run,
    Sheet,
    Step,
    Stream,
    Words,
}

impl Word {
    pub(super) fn text(self) -> &'static str
        ensures text { result.now ≡ word_text self }
        ensures bound { length result.now ≤ 20 }
    {
        match self {
            Word::Accepted => "accepted",
            Word::At => "at",
            Word::Blocks => "blocks",
            Word::Claim => "claim",
            Word::Columns => "columns",
            Word::Edges => "edges",
            Word::Finish => "finish",
            Word::In => "in",
            Word::LBlocks => "lblocks",
            Word::Line => "line",
            Word::Refused => "refused",
            Word::Rows => "rows",
            Word::Run => "run",
            Word::Sheet => "sheet",
            Word::Step => "step",
            Word::Stream => "stream",
            Word::Words => "words",
        }
    }
}

#[derive(Clone, Copy)]
pub(super) enum Field {
    Number(u64),
    Word(Word),
}

impl Field {
    // How many bytes the field has.
    pub(super) fn length(self) -> usize
        ensures count { result ≡ length (field_text self) }
        ensures bound { result ≤ 20 }
    {
        match self {
            Field::Number(n) => decimal_length(n),
            Field::Word(word) => word.text().len(),
        }
    }

    // Writes the field at the start of `out`, and answers how many bytes it has.
    pub(super) fn put(self, out: &mut [u8]) -> usize
        requires { length (field_text self) ≤ length out.old }
        ensures count { result ≡ length (field_text self) }
        ensures bytes { out.new ≡ over (field_text self) out.old }
    {
        match self {
            Field::Number(n) => put_decimal(out, n),
            Field::Word(word) => put_text(out, word.text()),
        }
    }
}

// Writes `text` at the start of `out`, and answers how many bytes it has.
pub(super) fn put_text(out: &mut [u8], text: &str) -> usize
    requires { length text.now ≤ length out.old }
    ensures count { result ≡ length text.now }
    ensures bytes { out.new ≡ over text.now out.old }
{
    let end = text.len();
    out[..end].copy_from_slice(text.as_bytes());
    end
}
