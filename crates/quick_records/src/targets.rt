// The quick way over a series' targets, from its start: those whose records are all told at a glance. Most are laid out as the last that was
// walked, their model, and are told by one comparison with it, as packs are. It does not know ids above 16,383, or that neither rise nor fall,
// but for the first 4,096 where bits are lent for them; targets whose pack has no byte alone for its length, or that something else follows
// than another or the end.
ghost use Rattle.std.specs.Prelude.{◌≡◌, ◌+◌, ◌<◌, ◌≤◌, true, length, drop, IfSome};
ghost use Rattle.format.specs.Sheet.{TG, is};
ghost use Rattle.items.specs.Meet.{form_of};
ghost use Rattle.tally.specs.Meet.{sizes};
ghost use Rattle.tally.specs.Going.{stage_at};
ghost use Rattle.quick_packs.specs.Packs.{As};
ghost use Rattle.quick_records.specs.Going.{TargetsPassed};
ghost use Rattle.quick_records.specs.Targets.{Laid, Over, Modelled, ModelAt};

use super::quick;
use heads::records;
use items::quick::Glances;
use quick_packs::bounds::Bounds;
use quick_packs::{Model, bounds};
use tally::Sizes;
use tally::stages::Stage;

// A target's records told at a glance, as `quick::glance_records` goes over them, and masked while there is room: whatever is laid out so is
// walked so.
fn lay(glances: &Glances, s: &[u8], alone: bool, masks: &mut [u8; 160]) -> Stage
    requires { length s.now ≤ 65536 }
    ensures { Laid (form_of alone) masks.new s.now result }
{
    let mut p: usize = 0;
    let mut count: usize = 0;
    let mut held: u64 = 0;
    let mut top: u64 = 0;
    while let Some(told) = quick::glance_record(glances, s, p, false, alone, top) {
        if p < 128 {
            let n = (told.next - (p + 6)) as u64;
            let first = items::quick::first_mask(glances, false, alone, told.tag, n);
            coding::alike::mask_item(masks, p, 6, first);
        }
        held = held | tally::bit_of(told.tag);
        top = told.tag;
        count += 1;
        p = told.next;
    }
    tally::stages::stage_at(p, quick::told_sizes(count, p), held, top, 0)
}

// A target is over at the end, or where another begins.
fn is_over(s: &[u8], p: usize) -> bool
    ensures { result ≡ true → p < length s.now → is TG (drop p s.now) ≡ true }
{
    s.len() <= p || records::is_mark(s, p, records::TG)
}

// Whether a target's records from there are laid out as the model's.
fn is_target_as(m: Model, masks: &[u8], s: &[u8], from: usize) -> bool
    requires { (length masks.now ≡ 160) × (length s.now ≤ 65536) × (from ≤ length s.now) × (m.from ≤ from) }
    ensures { result ≡ true → As masks.now s.now m from × Over s.now (from + m.size) }
{
    quick_packs::is_as(m, masks, s, from) && is_over(s, from + m.size)
}

// These records as the model, if they are all told at a glance and hold what a target must.
#[tactic(auto, using(crate::proofs::Models::laid_model))]
fn model_of(
    glances: &Glances,
    s: &[u8],
    from: usize,
    alone: bool,
    masks: &mut [u8; 160],
) -> Option<Model>
    requires { (length s.now ≤ 65536) × (from ≤ length s.now) }
    ensures { IfSome result (ModelAt alone masks.new s.now from) }
{
    *masks = [0; 160];
    let q = lay(glances, &s[from..], alone, masks);
    if !is_over(s, from + q.at) {
        return None;
    }
    tally::ended_of(alone, q.held).ok()?;
    Some(Model {
        from,
        size: q.at,
        rows: 1 + q.sizes.rows,
    })
}

// The model of these records: the last, if they are laid out so, or else they themselves.
#[tactic(auto, using(crate::proofs::Models::as_model))]
fn model_at(
    glances: &Glances,
    s: &[u8],
    from: usize,
    alone: bool,
    last: Option<Model>,
    masks: &mut [u8; 160],
) -> Option<Model>
    requires { (length s.now ≤ 65536) × (from ≤ length s.now) × IfSome last (λ m. Modelled alone masks.old s.now m × (m.from ≤ from)) }
    ensures { IfSome result (ModelAt alone masks.new s.now from) }
{
    if let Some(m) = last
        && is_target_as(m, masks, s, from)
    {
        return last;
    }
    model_of(glances, s, from, alone, masks)
}

// Where the target walk goes on after targets of p bytes, so many rows, and so many bytes in a packet.
fn passed(p: usize, rows: usize, normal: usize, b: Bounds) -> Stage
    ensures { result ≡ stage_at p (sizes p rows normal 0) 0 b.top b.low }
{
    let sizes = Sizes {
        sheet: p,
        rows,
        normal,
        inner: 0,
    };
    tally::stages::stage_at(p, sizes, 0, b.top, b.low)
}

// Such targets, one after another, from the series' start: ids rising or falling, or noted in the bits lent, of which most series need none.
fn many(glances: &Glances, s: &[u8], alone: bool, bits: &mut [u64]) -> Stage
    requires { (length s.now ≤ 65536) × (is TG s.now ≡ true) }
    ensures { TargetsPassed (form_of alone) s.now result }
{
    let mut p: usize = 0;
    let mut rows: usize = 0;
    let mut normal: usize = 0;
    let mut b = bounds::none();
    let mut masks: [u8; 160] = [0; 160];
    let mut last: Option<Model> = None;
    while 10 <= s.len() - p {
        let id = coding::eight_of(&s[p + 2..]);
        if 16383 < id {
            return passed(p, rows, normal, b);
        }
        let Some(reached) = bounds::reach(bits, p, b, id) else {
            return passed(p, rows, normal, b);
        };
        b = reached;
        let from = p + 10;
        let Some(m) = model_at(glances, s, from, alone, last, &mut masks) else {
            return passed(p, rows, normal, b);
        };
        let body = coding::widths::oid_width(id) + (m.size + 4 - 4 * m.rows);
        if 127 < body {
            return passed(p, rows, normal, b);
        }
        rows = rows + m.rows;
        normal = normal + 1 + body;
        p = from + m.size;
        last = Some(m);
    }
    passed(p, rows, normal, b)
}

// Those whose ids rise or fall: nothing is noted for them.
pub fn rising(glances: &Glances, s: &[u8], alone: bool) -> Stage
    requires { (length s.now ≤ 65536) × (is TG s.now ≡ true) }
    ensures { TargetsPassed (form_of alone) s.now result }
{
    let mut none = [0u64; 1];
    many(glances, s, alone, &mut none[0..0])
}

// Whether it was an id neither above nor below all before that ended it.
fn is_between(s: &[u8], q: Stage) -> bool
    requires { q.at ≤ length s.now }
{
    let at = q.at;
    if s.len() - at < 10 {
        return false;
    }
    let id = coding::eight_of(&s[at + 2..]);
    q.low <= id && id <= q.top
}

// The same from where that ended: if it was at an id that neither rises nor falls, anew, the first 4,096 noted in the bits lent, whatever these were.
pub fn noted(glances: &Glances, s: &[u8], alone: bool, q: Stage, bits: &mut [u64; 64]) -> Stage
    requires { (length s.now ≤ 65536) × TargetsPassed (form_of alone) s.now q }
    ensures { TargetsPassed (form_of alone) s.now result }
{
    if is_between(s, q) {
        *bits = [0; 64];
        return many(glances, s, alone, bits);
    }
    q
}
