// A line in a lent slice: its length, and its bytes.
ghost use Rattle.std.specs.Prelude.{◌≡◌, ◌+◌, ◌*◌, ◌≤◌, ◌∷◌, length};
ghost use Rattle.line.specs.Text.{over, over_at};
ghost use Rattle.line.specs.Fields.{field_text, layout_text};
ghost use Rattle.line.specs.Written.{Written};

use crate::fault::LineFault;
use crate::field::{Field, Word, put_text};

// Writes a space and the field from `at` on, and answers the place after them.
fn put_next(out: &mut [u8], at: usize, field: Field) -> usize
    requires { at + length (32 ∷ field_text field) ≤ length out.old }
    ensures place { result ≡ at + length (32 ∷ field_text field) }
    ensures bytes { out.new ≡ over_at at (32 ∷ field_text field) out.old }
{
    out[at] = b' ';
    let start = at + 1;
    start + field.put(&mut out[start..])
}

// A line's first word, and the fields after it.
#[derive(Clone, Copy)]
pub(super) struct Layout<'a> {
    pub(super) head: Word,
    pub(super) fields: &'a [Field],
    ghost bound: { length fields.now ≤ 64 },
}

impl Layout<'_> {
    // How many bytes the line has, with its last, the byte 10.
    fn length(&self) -> usize
        ensures count { result ≡ length (layout_text self.now.head self.now.fields.now) }
        ensures bound { result ≤ 21 + 21 * length self.now.fields.now }
    {
        let fields: usize = self.fields.iter().map(|field| 1 + field.length()).sum();
        self.head.text().len() + fields + 1
    }

    // Writes the line at the start of `out`.
    fn put(&self, out: &mut [u8])
        requires { length (layout_text self.now.head self.now.fields.now) ≤ length out.old }
        ensures { out.new ≡ over (layout_text self.now.head self.now.fields.now) out.old }
    {
        let mut at = put_text(out, self.head.text());
        for field in self.fields {
            at = put_next(out, at, *field);
        }
        out[at] = b'\n';
    }

    // Writes the line from `at` on, if `out` has room for it, and answers the place after it.
    pub(super) fn write(&self, out: &mut [u8], at: usize) -> Result<usize, LineFault>
        ensures written { Written out.old at (layout_text self.now.head self.now.fields.now) result out.new }
        ensures bound { length (layout_text self.now.head self.now.fields.now) ≤ 21 + 21 * length self.now.fields.now }
    {
        let needed = self.length();
        if out.len().saturating_sub(at) < needed {
            return Err(LineFault::TooShort(needed));
        }
        self.put(&mut out[at..]);
        Ok(at + needed)
    }
}
