// The quick way over a level's records, from its start: told at a glance, tags rising. It does not know tags that do not rise, or are above 127;
// values that no row tells (of 30 bytes and more, or a number that begins with 0), or of 128 bytes and more where no table lists the tag; the
// set's series. What stops it is left to the walks.
ghost use Rattle.std.specs.Prelude.{◌≡◌, ◌+◌, ◌-◌, ◌*◌, ◌≤◌, length, IfSome};
ghost use Rattle.items.specs.Meet.{form_of};
ghost use Rattle.tally.specs.Meet.{sizes};
ghost use Rattle.tally.specs.Going.{Begun};
ghost use Rattle.quick_records.specs.Going.{RecordsPassed, RecordGlanced, BegunGlanced, first_tag, word_of};

use heads::records;
use items::quick::Glances;
use tally::Sizes;
use tally::stages::Stage;

// A tag, and where its record ends.
#[derive(Clone, Copy, Debug, PartialEq, Eq)]
pub struct Told {
    pub tag: u64,
    pub next: usize,
}

// `IT` or `TI`, before a tag of 0, as one number.
fn word_of(set: bool) -> u32
    ensures { result ≡ word_of set }
{
    if set {
        (records::IT as u32) << 16
    } else {
        (records::TI as u32) << 16
    }
}

// A level's record at p that is told at a glance, its tag above top.
pub fn glance_record(
    glances: &Glances,
    s: &[u8],
    p: usize,
    set: bool,
    alone: bool,
    top: u64,
) -> Option<Told>
    requires { (length s.now ≤ 65536) × (p ≤ length s.now) }
    ensures { IfSome result (λ told. RecordGlanced set (form_of alone) s.now p top told.tag (told.next - (p + 6))) }
{
    let from = p + 6;
    if s.len() <= from {
        return None;
    }
    // mark and tag are read as one number; after another mark the tag is none of the table's
    let head = coding::number_of(&s[p..], 4);
    let tag = u64::from((head as u32).wrapping_sub(word_of(set)));
    if tag <= top {
        return None;
    }
    // no such value has 256 bytes; where the next record begins waits for one byte alone
    if s[p + 4] != 0 {
        return None;
    }
    let n = coding::wide(s[p + 5]);
    if !items::quick::is_glanced(glances, set, alone, tag, n, s[from]) {
        return None;
    }
    let next = from + (n as usize);
    if s.len() < next {
        return None;
    }
    Some(Told { tag, next })
}

// Such a record, if it may begin its level where it does.
pub fn glance_begun(
    glances: &Glances,
    s: &[u8],
    p: usize,
    set: bool,
    alone: bool,
    top: u64,
) -> Option<Told>
    requires { (length s.now ≤ 65536) × (p ≤ length s.now) }
    ensures { IfSome result (λ told. BegunGlanced set (form_of alone) s.now p top told.tag (told.next - (p + 6))) }
{
    let told = glance_record(glances, s, p, set, alone, top)?;
    if !items::begins(set, alone, told.tag, p == 0) {
        return None;
    }
    Some(told)
}

// Of so many records told at a glance, in p bytes.
pub fn told_sizes(count: usize, p: usize) -> Sizes
    requires { (4 * count ≤ p) × (p ≤ 65536) }
    ensures { result ≡ sizes p count (p - 4 * count) 0 }
{
    Sizes {
        sheet: p,
        rows: count,
        normal: p - 4 * count,
        inner: 0,
    }
}

// The first tag, which is the lowest where tags rise.
pub fn first_tag(s: &[u8]) -> u64
    ensures { result ≤ first_tag s.now }
{
    if s.len() < 4 {
        return 0;
    }
    coding::number_of(&s[2..], 2)
}

// The records of a level told at a glance, one after another; the first may begin it, and is not below `low`. Both are asked once, by the caller, as
// the compiler would split the loop by the one, and not put it in line with the other.
#[tactic(auto, using(crate::proofs::Glances::rising_start, crate::proofs::Glances::rising_done, crate::proofs::Glances::rising_more))]
pub fn glance_rising(glances: &Glances, s: &[u8], set: bool, alone: bool, low: u64) -> Stage
    requires { (length s.now ≤ 65536) × Begun set (form_of alone) 0 (first_tag s.now) × (low ≤ first_tag s.now) }
    ensures { RecordsPassed set (form_of alone) s.now result }
{
    let mut p: usize = 0;
    let mut count: usize = 0;
    let mut held: u64 = 0;
    let mut top: u64 = 0;
    while let Some(told) = glance_record(glances, s, p, set, alone, top) {
        held = held | tally::bit_of(told.tag);
        top = told.tag;
        count += 1;
        p = told.next;
    }
    tally::stages::stage_at(p, told_sizes(count, p), held, top, low)
}

// The same with the first tag as the lowest.
pub fn glance_records(glances: &Glances, s: &[u8], set: bool, alone: bool) -> Stage
    requires { (length s.now ≤ 65536) × Begun set (form_of alone) 0 (first_tag s.now) }
    ensures { RecordsPassed set (form_of alone) s.now result }
{
    glance_rising(glances, s, set, alone, first_tag(s))
}
