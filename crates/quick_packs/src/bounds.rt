// The bounds of a series' ids, of packs or of targets, and whether one more is told to be new.
ghost use Rattle.std.specs.Prelude.{◌≡◌};
ghost use Rattle.quick_packs.specs.Ids.{no_bounds, Bounded, Bounding};

// No id before is above top or below low.
#[derive(Clone, Copy, Debug, PartialEq, Eq)]
pub struct Bounds {
    pub top: u64,
    pub low: u64,
}

// Those of no id.
pub fn none() -> Bounds
    ensures { result ≡ no_bounds }
{
    Bounds {
        top: 0,
        low: u64::MAX,
    }
}

// Those after the id at p, if it is told to be new. One above or below all before moves one bound, but for the first, which sets both; any other
// must be unnoted in the bits lent. Then it is noted.
pub fn reach(bits: &mut [u64], p: usize, b: Bounds, id: u64) -> Option<Bounds>
    requires { Bounded p b }
    ensures { Bounding bits.old bits.new p b id result }
{
    let mut top = b.top;
    let mut low = b.low;
    if top < id {
        top = id;
        if p == 0 {
            low = id;
        }
    } else if id < low {
        low = id;
    } else if !repeats::notes::is_unnoted(bits, id) {
        return None;
    }
    repeats::notes::note(bits, id);
    Some(Bounds { top, low })
}
