// What the fact rows add to the columns of the blocks.
ghost use Rattle.std.specs.Prelude.{◌≡◌, ◌*◌, ◌^◌, ◌≤◌, length};
ghost use Rattle.sheet.specs.declared.limits.TheConstants.{MOST_FACTS};
ghost use Rattle.claim.specs.Parts.{multipliers};
ghost use Rattle.claim.specs.Shares.{Near};
ghost use Rattle.claim.specs.Tableau.{sheet_in, weights_in};
ghost use Rattle.claim.specs.Tables.{FactFits, FactsFit, FactAdded, FactTable, AllNear};

use crate::rows::value::multiplier;
use crate::scaled::Scaled;
use crate::tableau::Tableau;
use sheet::limits::MOST_BLOCKS;
use sheet::parts::Fact;

// A tableau with what the fact rows add to each block's column.
#[derive(Drop)]
pub struct FactShares<'a> {
    pub(crate) tableau: Tableau<'a>,
    pub(crate) shares: [Scaled; MOST_BLOCKS],
    ghost shared: { FactTable (weights_in tableau).facts (sheet_in tableau).facts shares },
    ghost near: { AllNear (2 ^ 60) shares },
}

// The row of one fact: its multiplier once for block i, and minus k times for block j.
fn add_fact(shares: &mut [Scaled; MOST_BLOCKS], fact: &Fact, multiplier: Scaled)
    requires fits { FactFits fact.now }
    requires near { Near (2 ^ 40) multiplier.0 }
    requires room { AllNear (31 * 2 ^ 55) shares.old }
    ensures { FactAdded fact.now multiplier.0 shares.old shares.new }
{
    shares[fact.i] = shares[fact.i] + multiplier;
    shares[fact.j] = shares[fact.j] - multiplier * fact.k;
}

// The shares of all blocks.
fn fact_shares(facts: &[Fact], pairs: &[[u32; 2]]) -> [Scaled; MOST_BLOCKS]
    requires fits { FactsFit facts.now }
    requires few { length facts.now ≤ MOST_FACTS }
    requires paired { length pairs.now ≡ length facts.now }
    ensures shares { FactTable (multipliers pairs.now) facts.now result }
    ensures near { AllNear (2 ^ 60) result }
{
    // Kept: judging allocates nothing, so a table is an array as long as its limit.
    let mut shares = [Scaled::ZERO; MOST_BLOCKS];
    for (fact, pair) in facts.iter().zip(pairs) {
        add_fact(&mut shares, fact, multiplier(pair));
    }
    shares
}

impl<'a> FactShares<'a> {
    // The facts of a tableau's sheet.
    // Kept: each of the three tables has to say of which tableau it is made.
    pub(crate) fn of(tableau: &Tableau<'a>) -> FactShares<'a>
        ensures { result.tableau ≡ tableau.now }
    {
        FactShares {
            tableau: *tableau,
            shares: fact_shares(tableau.sheet.facts(), tableau.rows.facts),
        }
    }
}
