// The quick way over a level, from its start: items told at a glance, with a byte each for tag and length, tags rising; then items that no
// table lists. It does not know whatever else may stand there, above all the series and the checksum, nor any refusal: what stops it is
// left to the walks.
#![tactic(auto)]

ghost use Rattle.std.specs.Prelude.{IfSome, ◌≡◌, true, false, ◌+◌, ◌*◌, ◌≤◌, ◌<◌, length, get_or};
ghost use Rattle.items.specs.Meet.{form_of};
ghost use Rattle.tally.specs.Going.{LevelTo, New};
ghost use Rattle.quick_items.specs.Items.{told_sizes, Span, GlancedTo, Plain};

use items::quick::Glances;
use tally::Sizes;
use tally::stages::Stage;

// How far such an item may begin: two bytes and a value have room there, and what begins the level may.
pub fn span(s: &[u8], set: bool, alone: bool) -> usize
    ensures { Span set (form_of alone) s.now result }
{
    if s.len() < 3 {
        return 0;
    }
    let tag = coding::wide(s[0]);
    if items::begins(set, alone, tag, true) {
        return s.len() - 2;
    }
    0
}

// Where such an item at p ends by its length, its tag above top.
pub fn glance_item(
    glances: &Glances,
    s: &[u8],
    p: usize,
    most: usize,
    set: bool,
    alone: bool,
    top: u64,
) -> Option<usize>
    requires { (length s.now ≤ 8192) × Span set (form_of alone) s.now most }
    ensures { IfSome result (GlancedTo set (form_of alone) s.now p top) }
{
    if most <= p {
        return None;
    }
    let tag = coding::wide(s[p]);
    if tag <= top {
        return None;
    }
    let n = coding::wide(s[p + 1]);
    if items::quick::is_glanced(glances, set, alone, tag, n, s[p + 2]) {
        return Some(p + 2 + (n as usize));
    }
    None
}

// The first tag, which is the lowest where tags rise; above all where it is not in one byte, so that tags that fall are below it.
pub fn first_tag(s: &[u8]) -> u64
    ensures { 0 < length s.now → get_or s.now 0 0 < 128 → result ≡ get_or s.now 0 0 }
{
    if s.len() == 0 {
        return 0;
    }
    let tag = coding::wide(s[0]);
    if 127 < tag {
        return u64::MAX;
    }
    tag
}

// Of so many items told at a glance, in p bytes.
pub fn told_sizes(count: usize, p: usize) -> Sizes
    requires { 4 * count + p ≤ 65536 }
    ensures { result ≡ told_sizes count p }
{
    Sizes {
        sheet: 4 * count + p,
        rows: count,
        normal: p,
        inner: 0,
    }
}

// The items told at a glance, one after another. If the last goes past the end, which is seen once for all, the walk begins anew.
pub fn glance_items(glances: &Glances, s: &[u8], set: bool, alone: bool) -> Stage
    requires { length s.now ≤ 8192 }
    ensures { LevelTo set (form_of alone) s.now result × (result.sizes ≡ told_sizes result.sizes.rows result.at) }
{
    let most = span(s, set, alone);
    let low = first_tag(s);
    let mut p: usize = 0;
    let mut count: usize = 0;
    let mut held: u64 = 0;
    let mut top: u64 = 0;
    while let Some(next) = glance_item(glances, s, p, most, set, alone, top) {
        let tag = coding::wide(s[p]);
        held = held | tally::bit_of(tag);
        top = tag;
        count += 1;
        p = next;
    }
    if s.len() < p {
        return tally::stages::stage_at(0, tally::weights::nothing(), 0, 0, low);
    }
    tally::stages::stage_at(p, told_sizes(count, p), held, top, low)
}

// ---- on from there

// Whether a key is told to be new without a look back: no key before p is above top or below low.
pub fn is_new(p: usize, top: u64, low: u64, key: u64) -> bool
    ensures { result ≡ true → New p top low key }
{
    top < key || key < low || p == 0
}

// Whether an item with a value of n bytes may stand at p, whatever they are: no table lists its tag, that is told to be new, and it is one
// with no bit, so that what the level holds stays as it is.
pub fn is_plain(set: bool, alone: bool, p: usize, top: u64, low: u64, tag: u64, n: usize) -> bool
    ensures { result ≡ true → Plain set (form_of alone) p top low tag n }
{
    n != 0
        && is_new(p, top, low, tag)
        && items::begins(set, alone, tag, p == 0)
        && items::quick::is_beyond(set, tag)
        && 64 <= tag
}

// The items after those of the quick way that are such, one after another. The series is none of them.
pub fn onward(s: &[u8], set: bool, alone: bool, q: Stage) -> Stage
    requires { (length s.now ≤ 8192) × LevelTo set (form_of alone) s.now q }
    ensures { LevelTo set (form_of alone) s.now result }
{
    let mut p = q.at;
    let mut sum = q.sizes;
    let mut top = q.top;
    let mut low = q.low;
    while p < s.len() {
        let Ok(head) = heads::item_head(&s[p..], set) else {
            break;
        };
        if !is_plain(set, alone, p, top, low, head.key, head.size) {
            break;
        }
        sum = tally::weights::plus(sum, tally::weights::plain_sizes(set, head.key, head.size));
        top = tally::larger(top, head.key);
        low = tally::smaller(low, head.key);
        p = p + head.used + head.width + head.size;
    }
    tally::stages::stage_at(p, sum, q.held, top, low)
}

pub mod closer; // closer.rt: items told by a closer look
