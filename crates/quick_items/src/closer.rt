// A closer look at the items of a level, from its start, with a byte for the tag: lengths may have two bytes, zeros may stand before a number, and tags
// may rise or fall. For who writes lengths of a fixed width, or items in another order. It does not know whatever else may stand there, nor any refusal.
ghost use Rattle.std.specs.Prelude.{IfSome, ◌≤◌, length};
ghost use Rattle.items.specs.Meet.{form_of};
ghost use Rattle.tally.specs.Going.{LevelTo};
ghost use Rattle.quick_items.specs.Items.{CloserAt};

use items::quick::Glances;
use tally::stages::Stage;
use tally::{Piece, stages};

// Such an item at p; no tag before p is above top or below low.
#[tactic(auto, using(heads::proofs::Heads::item_within))]
fn item_at(
    glances: &Glances,
    s: &[u8],
    p: usize,
    set: bool,
    alone: bool,
    top: u64,
    low: u64,
) -> Option<Piece>
    requires { p ≤ length s.now }
    ensures { IfSome result (CloserAt set (form_of alone) s.now p top low) }
{
    let t = &s[p..];
    let head = heads::closer_item_head(t, set)?;
    if !super::is_new(p, top, low, head.key) || !items::begins(set, alone, head.key, p == 0) {
        return None;
    }
    let from = head.used + head.width;
    let end = from + head.size;
    let short = items::quick::closer_size(glances, set, alone, head.key, &t[from..end])?;
    Some(Piece {
        tag: head.key,
        from,
        size: head.size,
        short,
    })
}

// These items, one after another. Each has a byte for its tag and one for its length in normal form.
pub fn items(glances: &Glances, s: &[u8], set: bool, alone: bool) -> Stage
    requires { length s.now ≤ 8192 }
    ensures { LevelTo set (form_of alone) s.now result }
{
    let mut p: usize = 0;
    let mut count: usize = 0;
    let mut normal: usize = 0;
    let mut held: u64 = 0;
    let mut top: u64 = 0;
    let mut low: u64 = u64::MAX;
    while p < s.len() {
        let Some(piece) = item_at(glances, s, p, set, alone, top, low) else {
            break;
        };
        held = held | tally::bit_of(piece.tag);
        top = tally::larger(top, piece.tag);
        low = tally::smaller(low, piece.tag);
        count += 1;
        normal = normal + 2 + piece.short;
        p = p + piece.from + piece.size;
    }
    stages::stage_at(p, super::told_sizes(count, normal), held, top, low)
}

// A level's items as far as they are told either way: at a glance, or if that does not tell all, by a closer look. What that costs is lost if it does not
// tell all either, so no long level is looked at.
pub fn level(glances: &Glances, s: &[u8], set: bool, alone: bool) -> Stage
    requires { length s.now ≤ 8192 }
    ensures { LevelTo set (form_of alone) s.now result }
{
    let q = super::glance_items(glances, s, set, alone);
    if q.at == s.len() || 255 < s.len() {
        return q;
    }
    items(glances, s, set, alone)
}
