// Lines, appended to the text that is printed. Each is first written in a buffer that has room for any line.
ghost use Rattle.marker.specs.Text.{Appended};

use line::lines::{Line, MOST_LINE};
use std::alloc::AllocError;

pub(crate) fn append<L: Line>(text: &mut Vec<u8>, line: &L) -> Result<(), AllocError>
    ensures { Appended text.old.items (L.text line.now) result text.new.items }
{
    // Kept: a line is written without allocating, into memory that is lent.
    let mut buffer = [0; MOST_LINE];
    let end = line.write(&mut buffer, 0).unwrap();
    text.extend_from_slice(&buffer[..end])
}
