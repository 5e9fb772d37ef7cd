// The walks that check a packet: one item at a time, the item walk and the pack walk, with the sizes of what they find.
#![tactic(auto)]

ghost use Rattle.std.specs.Prelude.{◌≡◌, ◌≤◌, true, false, length};
ghost use Rattle.items.specs.Meet.{form_of, level_of};
ghost use Rattle.heads.specs.Meet.{peek, Clear};
ghost use Rattle.tally.specs.Going.{LevelTo, SeriesTo, ItemRead};
ghost use Rattle.tally.specs.Meet.{pieced, walked, level_walk, series_walk, Within};

use coding::refusals::{Fault, Refusal, later, placed};
use heads::Look;
use items::Table;
use items::quick::Glances;
use tally::stages::Stage;
use tally::{Piece, Walked};

// The item at p of a level s; no tag before p is above top or below low, and none repeats before clear.
fn item_at(
    table: &Table,
    s: &[u8],
    p: usize,
    clear: usize,
    set: bool,
    alone: bool,
    top: u64,
    low: u64,
) -> Result<Piece, Refusal>
    requires { (p ≤ length s.now) × Clear (peek false false set) s.now clear }
    ensures { ItemRead set (form_of alone) s.now p top low (pieced result) }
{
    let t = &s[p..];
    let head = heads::item_head(t, set)?;
    if head.size == 0 {
        return Err(Refusal::EmptyValue);
    }
    let from = head.used + head.width;
    let end = from + head.size;
    let dup = repeats::is_seen(s, p, clear, top, low, head.key, Look::Items { set });
    items::standing_of(set, alone, dup, p == 0, head.key, end == t.len())?;
    let rule = items::rule_of(table, set, head.key);
    let v = &t[from..end];
    items::valued_of(rule, v)?;
    Ok(Piece {
        tag: head.key,
        from,
        size: head.size,
        short: items::short_size(rule, v),
    })
}

// The items of a level, the set or a pack.
pub fn item_walk(
    table: &Table,
    glances: &Glances,
    s: &[u8],
    set: bool,
    alone: bool,
    bits: &mut [u64; 64],
) -> Result<Walked, Fault>
    requires { length s.now ≤ 8192 }
    ensures { (walked result ≡ level_walk (level_of set) (form_of alone) s.now) × Within (walked result) (length s.now) }
{
    item_rest(
        table,
        glances,
        s,
        set,
        alone,
        quick_items::closer::level(glances, s, set, alone),
        bits,
    )
}

// The same, from where a quick way over them ended.
#[cycle(item_rest_pack_walk)]
pub fn item_rest(
    table: &Table,
    glances: &Glances,
    s: &[u8],
    set: bool,
    alone: bool,
    from: Stage,
    bits: &mut [u64; 64],
) -> Result<Walked, Fault>
    requires { (length s.now ≤ 8192) × LevelTo set (form_of alone) s.now from }
    ensures { (walked result ≡ level_walk (level_of set) (form_of alone) s.now) × Within (walked result) (length s.now) }
{
    let q = quick_items::onward(s, set, alone, from);
    let look = Look::Items { set };
    let mut p = q.at;
    let mut sum = q.sizes;
    let mut held = q.held;
    let mut top = q.top;
    let mut low = q.low;
    let mut clear: usize = 0;
    while p < s.len() {
        let piece = placed(item_at(table, s, p, clear, set, alone, top, low), p)?;
        let tag = piece.tag;
        let at = p + piece.from;
        let next = at + piece.size;
        let item = if tally::is_series(set, tag) {
            let packs = &s[at..next];
            let told = quick_packs::packs(glances, packs, alone);
            let series = pack_walk(table, glances, packs, alone, told, bits);
            later(tally::series_of(series, piece.from), p)?
        } else {
            tally::one_item(set, tag, piece.short)
        };
        sum = tally::weights::plus(sum, item.sizes);
        held = held | item.held;
        clear = repeats::clear::after(s, p, clear, top, low, tag, look, bits);
        top = tally::larger(top, tag);
        low = tally::smaller(low, tag);
        p = next;
    }
    Ok(Walked { sizes: sum, held })
}

// The packs of a series, from where the quick way over them ended.
#[cycle(item_rest_pack_walk)]
pub fn pack_walk(
    table: &Table,
    glances: &Glances,
    s: &[u8],
    alone: bool,
    from: Stage,
    bits: &mut [u64; 64],
) -> Result<Walked, Fault>
    requires { (length s.now ≤ 8192) × SeriesTo (form_of alone) s.now from }
    ensures { (walked result ≡ series_walk (form_of alone) s.now) × Within (walked result) (length s.now) }
{
    let noted = quick_packs::noted(glances, s, alone, from, bits);
    let q = quick_packs::closer::packs(glances, s, alone, noted);
    let mut p = q.at;
    let mut sum = q.sizes;
    let mut top = q.top;
    let mut low = q.low;
    let mut clear: usize = 0;
    while p < s.len() {
        let head = placed(heads::quick_pack_head(&s[p..]), p)?;
        let id = head.key;
        if repeats::is_seen(s, p, clear, top, low, id, Look::Packs) {
            return Err(Refusal::IdRepeated.at(p));
        }
        let from = p + head.width + head.used;
        let next = p + head.width + head.size;
        let items = &s[from..next];
        let told = quick_items::glance_items(glances, items, false, alone);
        let pack = later(
            item_rest(table, glances, items, false, alone, told, bits),
            from,
        )?;
        placed(tally::ended_of(alone, pack.held), p)?;
        sum = tally::weights::plus(sum, tally::weights::pack_sizes(head.used, pack.sizes));
        clear = repeats::clear::after(s, p, clear, top, low, id, Look::Packs, bits);
        top = tally::larger(top, id);
        low = tally::smaller(low, id);
        p = next;
    }
    Ok(Walked {
        sizes: sum,
        held: 0,
    })
}
