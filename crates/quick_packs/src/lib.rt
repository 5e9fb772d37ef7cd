// The quick way over a series, from its start: packs of items told at a glance. Most packs of a series are laid out alike, with the same heads
// at the same places, and such a one is told by one comparison with the last that was walked, its model. It does not know a pack whose length has
// more than a byte or whose id has more than two, one with an item that is not told at a glance, nor any refusal: what stops it is left to a closer
// look and the walks.
#![tactic(auto)]

ghost use Rattle.std.specs.Prelude.{IfSome, ◌≡◌, true, ◌+◌, ◌*◌, ◌-◌, ◌≤◌, ◌<◌, length};
ghost use Rattle.items.specs.Meet.{form_of};
ghost use Rattle.tally.specs.Going.{SeriesTo, stage_at};
ghost use Rattle.quick_packs.specs.Packs.{packed_sizes, Laid, As, InUse, ItemsAsked, ItemsTold, Chosen, Choosing};

use bounds::Bounds;
use items::quick::Glances;
use tally::stages::Stage;
use tally::{Sizes, stages};

// Where a pack's items begin, how many bytes they have, and the pack's rows.
#[derive(Clone, Copy, Debug, PartialEq, Eq)]
pub struct Model {
    pub from: usize,
    pub size: usize,
    pub rows: usize,
}

// A pack's items told at a glance, as `quick_items::glance_items` goes over them, and masked: whatever is laid out so is walked so.
fn lay(glances: &Glances, s: &[u8], alone: bool, masks: &mut [u8; 160]) -> Stage
    requires { length s.now < 128 }
    ensures { Laid (form_of alone) masks.new s.now result × (length masks.new ≡ 160) }
{
    let most = quick_items::span(s, false, alone);
    let low = quick_items::first_tag(s);
    let mut p: usize = 0;
    let mut count: usize = 0;
    let mut held: u64 = 0;
    let mut top: u64 = 0;
    while let Some(next) = quick_items::glance_item(glances, s, p, most, false, alone, top) {
        let tag = coding::wide(s[p]);
        let first = items::quick::first_mask(glances, false, alone, tag, coding::wide(s[p + 1]));
        coding::alike::mask_item(masks, p, 2, first);
        held = held | tally::bit_of(tag);
        top = tag;
        count += 1;
        p = next;
    }
    if s.len() < p {
        return stages::stage_at(0, tally::weights::nothing(), 0, 0, low);
    }
    stages::stage_at(p, quick_items::told_sizes(count, p), held, top, low)
}

// Whether what stands from there on is laid out as the model's items.
pub fn is_as(m: Model, masks: &[u8], s: &[u8], from: usize) -> bool
    requires { (length masks.now ≡ 160) × (from ≤ length s.now) × (m.from ≤ from) }
    ensures { result ≡ true → As masks.now s.now m from }
{
    m.size <= 127 && coding::alike::are_alike(masks, &s[m.from..], &s[from..], m.size)
}

// The same of a pack's items, from one place to another.
fn is_pack_as(m: Model, masks: &[u8], s: &[u8], from: usize, next: usize) -> bool
    requires { (length masks.now ≡ 160) × (from ≤ next) × (next ≤ length s.now) × (m.from ≤ from) }
    ensures { result ≡ true → (m.size ≡ next - from) × As masks.now s.now m from }
{
    next - from == m.size && is_as(m, masks, s, from)
}

// These items as the model, if they are all told at a glance and hold what a pack must.
fn model_of(
    glances: &Glances,
    s: &[u8],
    from: usize,
    next: usize,
    alone: bool,
    masks: &mut [u8; 160],
) -> Option<Model>
    requires { ItemsAsked s.now from next }
    ensures { IfSome result (Chosen alone masks.new s.now from next) }
{
    *masks = [0; 160];
    let q = lay(glances, &s[from..next], alone, masks);
    if q.at != next - from || tally::ended_of(alone, q.held).is_err() {
        return None;
    }
    Some(Model {
        from,
        size: q.at,
        rows: 1 + q.sizes.rows,
    })
}

// The rows of a pack with such items, where no model is worth its masks.
fn unmodelled(glances: &Glances, s: &[u8], from: usize, next: usize, alone: bool) -> Option<usize>
    requires { ItemsAsked s.now from next }
    ensures { IfSome result (ItemsTold alone s.now from next) }
{
    let q = quick_items::glance_items(glances, &s[from..next], false, alone);
    if q.at != next - from || tally::ended_of(alone, q.held).is_err() {
        return None;
    }
    Some(1 + q.sizes.rows)
}

// The model in use, the rows of the pack that was told last, and how many packs were not laid out as their model.
#[derive(Clone, Copy)]
struct Choice {
    model: Option<Model>,
    rows: usize,
    misses: usize,
}

// How a pack's items are told: as the model in use, if they are laid out as its items are; else they themselves, which are the model then, or none
// where so many packs were not as their model that none is worth its masks.
fn choose(
    glances: &Glances,
    s: &[u8],
    from: usize,
    next: usize,
    alone: bool,
    c: Choice,
    masks: &mut [u8; 160],
) -> Option<Choice>
    requires { ItemsAsked s.now from next × InUse alone masks.old s.now from c.model × (c.misses ≤ 8192) }
    ensures { IfSome result (Choosing alone masks.new s.now from next c.misses) }
{
    if let Some(m) = c.model {
        if is_pack_as(m, masks, s, from, next) {
            return Some(Choice {
                model: c.model,
                rows: m.rows,
                misses: c.misses,
            });
        }
    }
    let misses = c.misses + 1;
    if 64 * c.misses <= 512 + from {
        let m = model_of(glances, s, from, next, alone, masks)?;
        return Some(Choice {
            model: Some(m),
            rows: m.rows,
            misses,
        });
    }
    let rows = unmodelled(glances, s, from, next, alone)?;
    Some(Choice {
        model: None,
        rows,
        misses,
    })
}

// ---- packs

// Where the pack walk goes on after packs of p bytes and so many rows, each with a byte for its length.
fn passed(p: usize, rows: usize, more: usize, b: Bounds) -> Stage
    requires { p + 4 * rows + more ≤ 65536 }
    ensures { result ≡ stage_at p (packed_sizes p rows more) 0 b.top b.low }
{
    let sizes = Sizes {
        sheet: p + 4 * rows + more,
        rows,
        normal: p,
        inner: 0,
    };
    stages::stage_at(p, sizes, 0, b.top, b.low)
}

// The packs whose length has one byte and whose id has one or two, and whose items are all told at a glance, one after another, from a series'
// start: ids rising or falling, or noted in the bits lent. Beside as many bytes as such a pack has, its sheet has four for each row, and five less
// those of its id.
fn many(glances: &Glances, s: &[u8], alone: bool, bits: &mut [u64]) -> Stage
    requires { length s.now ≤ 8192 }
    ensures { SeriesTo (form_of alone) s.now result }
{
    let mut p: usize = 0;
    let mut rows: usize = 0;
    let mut more: usize = 0;
    let mut b = bounds::none();
    let mut masks: [u8; 160] = [0; 160];
    let mut c = Choice {
        model: None,
        rows: 0,
        misses: 0,
    };
    while p < s.len() {
        let Some(head) = heads::short_pack_head(&s[p..]) else {
            break;
        };
        let Some(reached) = bounds::reach(bits, p, b, head.key) else {
            break;
        };
        b = reached;
        let from = p + head.width + head.used;
        let next = p + head.width + head.size;
        let Some(chosen) = choose(glances, s, from, next, alone, c, &mut masks) else {
            break;
        };
        c = chosen;
        rows = rows + c.rows;
        more = more + 5 - head.used;
        p = next;
    }
    passed(p, rows, more, b)
}

// Whether it was an id neither above nor below all before that ended it.
fn is_between(s: &[u8], q: Stage) -> bool
    requires { q.at ≤ length s.now }
{
    match heads::short_pack_head(&s[q.at..]) {
        Some(head) => q.low <= head.key && head.key <= q.top,
        None => false,
    }
}

// Packs told at a glance from a series' start, ids rising or falling. Most series have ids that rise, and nothing is noted for them.
pub fn packs(glances: &Glances, s: &[u8], alone: bool) -> Stage
    requires { length s.now ≤ 8192 }
    ensures { SeriesTo (form_of alone) s.now result }
{
    many(glances, s, alone, &mut [])
}

// The same from where that ended: if it was at an id that neither rises nor falls, anew, the first 4,096 noted in the bits lent, whatever these were.
pub fn noted(glances: &Glances, s: &[u8], alone: bool, q: Stage, bits: &mut [u64; 64]) -> Stage
    requires { (length s.now ≤ 8192) × SeriesTo (form_of alone) s.now q }
    ensures { SeriesTo (form_of alone) s.now result }
{
    if is_between(s, q) {
        *bits = [0; 64];
        return many(glances, s, alone, bits);
    }
    q
}

// Whether the first pack, with a byte for its length, is all of the series.
fn is_lone(s: &[u8]) -> bool
    ensures { result ≡ true → 0 < length s.now }
{
    0 < s.len() && s.len() - 1 == coding::wide(s[0]) as usize
}

// The same of a series of one pack alone, for which no model is laid out: apart, so that it stands where it is called.
#[tactic(auto, using(tally::proofs::PackTurns::series_start))]
pub fn lone(glances: &Glances, s: &[u8], alone: bool) -> Stage
    requires { length s.now ≤ 8192 }
    ensures { SeriesTo (form_of alone) s.now result }
{
    let start = passed(0, 0, 0, bounds::none());
    if !is_lone(s) {
        return start;
    }
    let Some(head) = heads::short_pack_head(s) else {
        return start;
    };
    let from = head.width + head.used;
    let next = head.width + head.size;
    let Some(rows) = unmodelled(glances, s, from, next, alone) else {
        return start;
    };
    let b = Bounds {
        top: head.key,
        low: head.key,
    };
    passed(next, rows, 5 - head.used, b)
}

pub mod bounds; // bounds.rt: the bounds of the ids, and whether one more is new
pub mod closer; // closer.rt: packs told by a closer look
