// The line of a case.
ghost use Rattle.std.specs.Prelude.{◌≡◌};
ghost use Rattle.line.specs.Written.{Written};
ghost use Rattle.judge_cases.specs.Answer.{case_text};

use claim::judge::judge;
use line::fault::LineFault;
use line::lines::{Accepted, Item, Line, Refused};
use sheet::room::SheetRoom;

// The words of a sheet, and those of a certificate.
#[derive(Clone, Copy)]
pub(crate) struct Case<'a> {
    pub(crate) sheet: &'a [u32],
    pub(crate) certificate: &'a [u32],
}

impl Case<'_> {
    // Reads the sheet, and judges the certificate.
    fn judged(&self, room: &mut SheetRoom) -> Result<Accepted, Refused>
        ensures { ⟦<Result<Accepted, Refused> as Line>⟧.text result ≡ case_text self.now.sheet.now self.now.certificate.now }
    {
        room.read(self.sheet)
            .map_err(|fault| Refused::new(Item::Sheet, &fault))?;
        judge(room.sheet(), self.certificate)
            .map(|cycles| Accepted { cycles: cycles.0 })
            .map_err(|fault| Refused::new(Item::Claim, &fault))
    }

    // Writes the line of the answer, and answers the place after it.
    pub(crate) fn answer(&self, room: &mut SheetRoom, out: &mut [u8]) -> Result<usize, LineFault>
        ensures { Written out.old 0 (case_text self.now.sheet.now self.now.certificate.now) result out.new }
    {
        self.judged(room).write(out, 0)
    }
}
