// Judging a certificate: its words, then signs, columns and the claim.
ghost use Rattle.std.specs.Prelude.{◌≡◌, ◌<◌, length, IfOk, slice_index_or};
ghost use Rattle.sheet.specs.Rows.{rows as row_list, at_most as says_at_most, right_side as right_side_of, in_row};
ghost use Rattle.sheet.specs.View.{view};
ghost use Rattle.claim.specs.Certificate.{combined};
ghost use Rattle.claim.specs.Judge.{sign_tests};
ghost use Rattle.claim.specs.Judging.{Judging, Covers, JudgeLaws};
ghost use Rattle.claim.specs.Parts.{multipliers};
ghost use Rattle.claim.specs.Shares.{all, FirstLow, as_tested};
ghost use Rattle.claim.specs.Tableau.{sheet_in, weights_in};

use crate::amount::Cycles;
use crate::certificate::read::read;
use crate::fault::ClaimFault;
use crate::rows::value::{at, sum};
use crate::scaled::Scaled;
use crate::tableau::Tableau;
use sheet::timing::Sheet;

impl Tableau<'_> {
    // Whether a row says `at most`: loops and facts, which follow one another, and misses, which come last.
    fn at_most(&self, row: usize) -> bool
        requires { row < length (row_list (sheet_in self.now)) }
        ensures { result ≡ says_at_most (slice_index_or (row_list (sheet_in self.now)) row (in_row 0)) }
    {
        let sheet = self.sheet;
        let blocks = sheet.blocks().len();
        if row < 2 * blocks {
            return false;
        }
        if row < 2 * blocks + sheet.loops().len() + sheet.facts().len() {
            return true;
        }
        sheet.rows() - sheet.lblocks().len() <= row
    }

    // The first at_most row whose multiplier is negative.
    fn negative_row(&self) -> Option<usize>
        ensures { FirstLow as_tested (sign_tests (multipliers self.now.pairs.now) (row_list (sheet_in self.now))) result }
    {
        let pairs = self.pairs;
        (0..pairs.len()).find(|&row| self.at_most(row) && at(pairs, row) < Scaled::ZERO)
    }

    // The right sides times the multipliers: block 0's in row, the last block's out row, and the set rows.
    fn right_side(&self) -> Scaled
        ensures { result.0 ≡ combined (all (weights_in self.now)) (row_list (sheet_in self.now)) (right_side_of (sheet_in self.now)) }
    {
        let rows = self.rows;
        let blocks = self.sheet.blocks().len();
        at(rows.ins, 0) + at(rows.outs, blocks - 1) + sum(rows.sets)
    }
}

// The claim W of the certificate whose words these are, if it passes, or the first fault. Nothing is allocated.
#[tactic(auto, using(crate::proofs::Judgement::judge_laws))]
pub fn judge(sheet: &Sheet, words: &[u32]) -> Result<Cycles, ClaimFault>
    ensures answer { Judging (view sheet.now) words.now result }
    ensures covers { IfOk result (λ w. Covers (view sheet.now) w.0) }
    ensures laws { JudgeLaws }
{
    let certificate = read(words, sheet.rows())?;
    let tableau = Tableau::new(sheet, certificate.pairs, certificate.scale);
    if let Some(row) = tableau.negative_row() {
        return Err(ClaimFault::NegativeMultiplier(row));
    }
    if let Some(column) = tableau.low_column() {
        return Err(ClaimFault::ColumnTooLow(column));
    }
    if !tableau
        .right_side()
        .within(certificate.claim, certificate.scale)
    {
        return Err(ClaimFault::ClaimTooLow);
    }
    Ok(certificate.claim)
}
