// The set of a packet: the quick ways over its items, its series and its checksum. They do not know a series or a checksum that stands elsewhere than
// right after items told at a glance, nor any refusal: the walks go on where they ended, and the first refusal that these find is the set's.
ghost use Rattle.std.specs.Prelude.{◌≡◌, ◌≤◌, ◌<◌, true, length, IfSome};
ghost use Rattle.format.specs.Table.{set};
ghost use Rattle.items.specs.Meet.{form_of};
ghost use Rattle.tally.specs.Meet.{walked, level_walk, series_walk, Within};
ghost use Rattle.tally.specs.Going.{LevelTo, SeriesTo};
ghost use Rattle.check_packet.specs.Meet.{HeadRead};
ghost use Rattle.check_packet.specs.Sets.{SeriesNext};

use coding::refusals::{Fault, later};
use heads::Head;
use items::Table;
use items::quick::Glances;
use tally::stages::Stage;
use tally::{Walked, stages};

// The head of the item at p, if that begins with this byte: then most of it is known.
fn head_at(s: &[u8], p: usize, byte: u8) -> Option<Head>
    ensures { IfSome result (HeadRead s.now p) }
{
    if s.len() <= p {
        return None;
    }
    if s[p] != byte {
        return None;
    }
    match heads::item_head(&s[p..], true) {
        Ok(head) => Some(head),
        Err(_) => None,
    }
}

// Where the packs of the series begin and end.
#[derive(Clone, Copy, Debug, PartialEq, Eq)]
struct Part {
    from: usize,
    next: usize,
}

// Those of the series, if it stands at p, with a value, and its tag is told to be new.
fn series_at(s: &[u8], p: usize, top: u64) -> Option<Part>
    requires { length s.now ≤ 8192 }
    ensures { IfSome result (λ part. SeriesNext s.now p top part.from part.next) }
{
    if !tally::is_series_new(p, top) {
        return None;
    }
    let head = head_at(s, p, 101)?;
    if head.size == 0 {
        return None;
    }
    if head.key != 101 {
        return None;
    }
    let from = p + head.used + head.width;
    Some(Part {
        from,
        next: from + head.size,
    })
}

// Whether a tag and a length are the checksum's, where it may stand, and the tag is told to be new.
fn is_seal_next(alone: bool, p: usize, low: u64, tag: u64, size: usize, last: bool) -> bool
    ensures { result ≡ true → (alone ≡ true) × (0 < p) × (1 < low) × (tag ≡ 1) × (size ≡ 2) × (last ≡ true) }
{
    if !alone {
        return false;
    }
    if p == 0 {
        return false;
    }
    if low <= 1 {
        return false;
    }
    if tag != 1 {
        return false;
    }
    if size != 2 {
        return false;
    }
    last
}

// On over the checksum, if it stands next.
fn seal(s: &[u8], alone: bool, q: Stage) -> Stage
    requires { (length s.now ≤ 8192) × LevelTo true (form_of alone) s.now q }
    ensures { LevelTo true (form_of alone) s.now result }
{
    let p = q.at;
    let Some(head) = head_at(s, p, 1) else {
        return q;
    };
    let next = p + head.used + head.width + head.size;
    if !is_seal_next(alone, p, q.low, head.key, head.size, next == s.len()) {
        return q;
    }
    let sum = tally::weights::plus(q.sizes, tally::weights::plain_sizes(true, 1, 2));
    stages::stage_at(
        next,
        sum,
        q.held | tally::bit_of(1),
        tally::larger(q.top, 1),
        1,
    )
}

// The rest of the set, from where the quick way ended: its checksum, or whatever is left, one by one.
fn set_rest(glances: &Glances, s: &[u8], alone: bool, from: Stage) -> Result<Walked, Fault>
    requires { (length s.now ≤ 8192) × LevelTo true (form_of alone) s.now from }
    ensures { (walked result ≡ level_walk set (form_of alone) s.now) × Within (walked result) (length s.now) }
{
    let q = seal(s, alone, from);
    if q.at == s.len() {
        return Ok(stages::walked(q));
    }
    let table = Table::new();
    let mut bits = [0u64; 64];
    check_items::item_rest(&table, glances, s, true, alone, q, &mut bits)
}

// The packs of a series one by one, from where the quick way over them ended.
fn packs_rest(glances: &Glances, s: &[u8], alone: bool, q: Stage) -> Result<Walked, Fault>
    requires { (length s.now ≤ 8192) × SeriesTo (form_of alone) s.now q }
    ensures { (walked result ≡ series_walk (form_of alone) s.now) × Within (walked result) (length s.now) }
{
    let table = Table::new();
    let mut bits = [0u64; 64];
    check_items::pack_walk(&table, glances, &s[0..], alone, q, &mut bits)
}

// The items of the set. An embedded one often ends with its series. Where all are told at a glance no result and no stage goes through memory: the
// rests are called at one place each, so that they stand there, and lent parts, so that the compiler keeps the slices themselves in registers.
pub fn set_walk(glances: &Glances, s: &[u8], alone: bool) -> Result<Walked, Fault>
    requires { length s.now ≤ 8192 }
    ensures { (walked result ≡ level_walk set (form_of alone) s.now) × Within (walked result) (length s.now) }
{
    let q = quick_items::glance_items(glances, s, true, alone);
    let r = match series_at(s, q.at, q.top) {
        None => q,
        Some(part) => {
            let packs = &s[part.from..part.next];
            let one = quick_packs::lone(glances, packs, alone);
            if one.at != packs.len() {
                let d = quick_packs::packs(glances, packs, alone);
                if d.at != packs.len() {
                    // a refusal in the series is the set's
                    let series = later(packs_rest(glances, packs, alone, d), part.from)?;
                    stages::after_series(q, part.next, series.sizes)
                } else {
                    stages::after_series(q, part.next, d.sizes)
                }
            } else {
                stages::after_series(q, part.next, one.sizes)
            }
        }
    };
    if r.at == s.len() {
        return Ok(stages::walked(r));
    }
    set_rest(glances, &s[0..], alone, r)
}
