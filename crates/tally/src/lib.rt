// What a walk over a level or a series says: an item that may stand there, and the sizes of what was walked.
#![tactic(auto)]

ghost use Rattle.std.specs.Prelude.{◌≡◌, ◌≤◌, ◌<◌, true, ◌&&◌, eqb};
ghost use Rattle.format.specs.Table.{alike};
ghost use Rattle.items.specs.Meet.{form_of, level_of};
ghost use Rattle.tally.specs.Pieces.{Good};
ghost use Rattle.tally.specs.Meet.{item_sizes, unended, walk_of, walked, series_from, bit_of, is_held, ended_by, Larger, Within};

use coding::refusals::{Fault, Refusal, later};

// An item that may stand where it does: its tag, where its value begins, its length, and its shortest length.
#[derive(Clone, Copy, Debug, PartialEq, Eq)]
pub struct Piece {
    pub tag: u64,
    pub from: usize,
    pub size: usize,
    pub short: usize,
}

// The bytes in the sheet, the rows, the bytes in normal form, and those of a series' packs.
#[derive(Clone, Copy, Debug, PartialEq, Eq)]
pub struct Sizes {
    pub sheet: usize,
    pub rows: usize,
    pub normal: usize,
    pub inner: usize,
}

// ---- walks

// What was walked, with the bits of the tags that it holds, for the rules at its end.
#[derive(Clone, Copy, Debug, PartialEq, Eq)]
pub struct Walked {
    pub sizes: Sizes,
    pub held: u64,
}

pub fn larger(a: u64, b: u64) -> u64
    ensures { Larger a b result }
{
    if a < b { b } else { a }
}

pub fn smaller(a: u64, b: u64) -> u64
    ensures { (result ≤ a) × (result ≤ b) }
{
    if a < b { a } else { b }
}

pub fn is_series(set: bool, tag: u64) -> bool
    ensures { result ≡ (set && eqb tag 101) }
{
    if set { tag == 101 } else { false }
}

// Whether the series' tag is told to be new at p: items stand before it, and none has a tag so high.
pub fn is_series_new(p: usize, top: u64) -> bool
    ensures { result ≡ true → (0 < p) × (top < 101) }
{
    if p == 0 {
        return false;
    }
    top < 101
}

// The bit of a tag. Only tags below 64 have one: every tag that a level's end asks for is among them.
pub fn bit_of(tag: u64) -> u64
    ensures { result ≡ bit_of tag }
{
    if tag < 64 { 1 << tag } else { 0 }
}

// Whether the bit of a tag is among those held.
pub fn is_held(tag: u64, held: u64) -> bool
    requires { tag < 64 }
    ensures { result ≡ is_held tag held }
{
    (held >> tag) % 2 == 1
}

// Both, or neither.
fn alike(a: bool, b: bool) -> bool
    ensures { result ≡ alike a b }
{
    if a { b } else { !b }
}

// 20 and 14, where a pack or a target ends: 19 and 20 stand together, and one that stands alone must hold its location.
pub fn ended_of(alone: bool, held: u64) -> Result<(), Refusal>
    ensures { unended result ≡ ended_by (form_of alone) held }
{
    if !alike(is_held(19, held), is_held(20, held)) {
        return Err(Refusal::HalfCentroid);
    }
    if coding::either(!alone, is_held(17, held)) {
        return Ok(());
    }
    Err(Refusal::Missing)
}

// An item that is no series.
pub fn one_item(set: bool, tag: u64, n: usize) -> Walked
    requires { (tag ≤ 16383) × (n ≤ 65536) }
    ensures { walk_of result ≡ Good (item_sizes (level_of set) tag n) (bit_of tag) }
{
    Walked {
        sizes: weights::plain_sizes(set, tag, n),
        held: bit_of(tag),
    }
}

// A series, given its packs, whose bytes begin at k.
pub fn series_of(packs: Result<Walked, Fault>, k: usize) -> Result<Walked, Fault>
    requires { Within (walked packs) 65536 × (k ≤ 65536) }
    ensures { walked result ≡ series_from k (walked packs) }
{
    let series = later(packs, k)?;
    Ok(Walked {
        sizes: weights::series_sizes(series.sizes),
        held: 0,
    })
}

pub mod stages; // stages.rt: where a walk goes on
pub mod weights; // weights.rt: the sizes of an item, a pack and the series
