// What reading a list answers.
use crate::drum::{DRUM, is_drum};
use sheet::room::SheetRoom;
use std::alloc::Global;
use std::test::Fail;
use words::refusal::{Layer, Refusal, Refuse};

// A room that holds the drum task's sheet.
pub fn drum_room(heap: Global) -> Result<SheetRoom, Fail> {
    let mut room = SheetRoom::reserve(heap)?;
    accepted(&mut room, &DRUM)?;
    Ok(room)
}

// The refusal of a list, if it is refused.
pub fn refusal(room: &mut SheetRoom, list: &[u32]) -> Option<Refusal> {
    room.read(list).err().map(|fault| fault.refusal())
}

// Fails unless that is what reading the list answers.
fn answers(room: &mut SheetRoom, list: &[u32], expected: Option<Refusal>) -> Result<(), Fail> {
    let answer = refusal(room, list);
    if answer != expected {
        let n = list.len();
        return Err(Fail::new(format_args!("a list of {n} words: {answer:?} and not {expected:?}")));
    }
    Ok(())
}

// Fails unless the list is accepted.
pub fn accepted(room: &mut SheetRoom, list: &[u32]) -> Result<(), Fail> {
    answers(room, list, None)
}

// Fails unless the list is refused so, and the room holds the drum task's sheet as before. Numbers 1 to 4 are of the layer of words.
// Kept: tests state the number that is printed, which an enum of faults would leave to the code under test.
pub fn refused(room: &mut SheetRoom, list: &[u32], number: u8, place: usize) -> Result<(), Fail> {
    let layer = if number <= 4 {
        Layer::Words
    } else {
        Layer::Sheet
    };
    let expected = Refusal {
        number,
        place,
        layer,
    };
    answers(room, list, Some(expected))?;
    if !is_drum(room.sheet()) {
        let n = list.len();
        return Err(Fail::new(format_args!(
            "after a list of {n} words the sheet that was held is lost"
        )));
    }
    Ok(())
}
