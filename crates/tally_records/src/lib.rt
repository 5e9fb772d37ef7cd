// What a walk over a sheet's records says, as `tally` has it of a packet's items. Its meaning stands in specs/: one record, a level, the
// series' targets.
#![tactic(auto)]

ghost use Rattle.std.specs.Prelude.{◌≡◌, ◌+◌, ◌≤◌, drop};
ghost use Rattle.items.specs.Meet.{level_of};
ghost use Rattle.tally.specs.Meet.{Small, Larger};
ghost use Rattle.tally_records.specs.Meet.{more_at};
ghost use Rattle.tally_records.specs.Going.{After};

use heads::records;
use tally::Sizes;
use tally::stages::Stage;

// Whether a level goes on at p: the set to its end, a target while `TI`s stand there.
pub fn goes_on(s: &[u8], p: usize, set: bool) -> bool
    ensures { result ≡ more_at (level_of set) (drop p s.now) }
{
    set || records::is_mark(s, p, records::TI)
}

// Where a walk goes on after one more with this tag or id, of these sizes: it takes as many bytes as it adds to the sheet.
pub fn after(q: Stage, key: u64, sizes: Sizes, held: u64) -> Stage
    requires { Small q.sizes × Small sizes × (q.at + sizes.sheet ≤ 65536) }
    ensures { After q key sizes held result × Larger q.top key result.top }
{
    let next = q.at + sizes.sheet;
    let sum = tally::weights::plus(q.sizes, sizes);
    tally::stages::stage_at(
        next,
        sum,
        q.held | held,
        tally::larger(q.top, key),
        tally::smaller(q.low, key),
    )
}
