// Where a walk goes on, and what was walked till there: a quick way hands it to the walk, and one walk to the next.
ghost use Rattle.std.specs.Prelude.{◌≡◌};
ghost use Rattle.tally.specs.Pieces.{Good};
ghost use Rattle.tally.specs.Meet.{walk_of, series_sizes, plus_sizes, Small};
ghost use Rattle.tally.specs.Going.{stage_at};

use super::{Sizes, Walked};

#[derive(Clone, Copy, Debug, PartialEq, Eq)]
pub struct Stage {
    pub at: usize,
    pub sizes: Sizes,
    pub held: u64,
    pub top: u64,
    pub low: u64,
}

pub fn stage_at(at: usize, sizes: Sizes, held: u64, top: u64, low: u64) -> Stage
    ensures { result ≡ stage_at at sizes held top low }
{
    Stage {
        at,
        sizes,
        held,
        top,
        low,
    }
}

// Where the set goes on after its series, whose packs or targets have these sizes. The lowest tag stands before it: a series that is told to be new
// has a higher one.
pub fn after_series(q: Stage, next: usize, sizes: Sizes) -> Stage
    requires { Small sizes × Small q.sizes × Small (series_sizes sizes) }
    ensures { result ≡ stage_at next (plus_sizes q.sizes (series_sizes sizes)) q.held 101 q.low }
{
    let sum = super::weights::plus(q.sizes, super::weights::series_sizes(sizes));
    stage_at(next, sum, q.held, 101, q.low)
}

// What was walked till there.
pub fn walked(q: Stage) -> Walked
    ensures { walk_of result ≡ Good q.sizes q.held }
{
    Walked {
        sizes: q.sizes,
        held: q.held,
    }
}
