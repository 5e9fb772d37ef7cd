// What heads the records of a sheet: marks, an item's fields, and a key with the bytes of all that it heads.
ghost use Rattle.std.specs.Prelude.{◌≡◌, ◌/◌, ◌%◌, ◌+◌, ◌≤◌, IfSome, false, length, drop};
ghost use Rattle.format.specs.Sheet.{is, field};
ghost use Rattle.items.specs.Meet.{level_of};
ghost use Rattle.heads.specs.Meet.{Peeked};
ghost use Rattle.heads.specs.Records.{told_field, field_answer, peek_val, record_size, span, peek_target, peek_part, peek_record};

use super::Next;
use coding::refusals::Refusal;

// The marks, each as one number of two bytes: of the sheet, an item of the set, the series, a target, an item of a target.
pub const PK: u64 = 0x504B;

pub const IT: u64 = 0x4954;

pub const TS: u64 = 0x5453;

pub const TG: u64 = 0x5447;

pub const TI: u64 = 0x5449;

// Whether a mark stands at p.
#[tactic(auto, using(crate::proofs::Spans::mark_cut))]
pub fn is_mark(s: &[u8], p: usize, mark: u64) -> bool
    ensures { result ≡ is (mark / 256, mark % 256) (drop p s.now) }
{
    if s.len() < 2 || s.len() - 2 < p {
        return false;
    }
    coding::wide(s[p]) == mark >> 8 && coding::wide(s[p + 1]) == mark % 256
}

// An item's record, whatever its mark.
#[tactic(auto, using(crate::proofs::Spans::val_cut, crate::proofs::Spans::val_over, crate::proofs::Spans::val_whole))]
fn val_next(s: &[u8]) -> Option<Next>
    ensures peeked { Peeked peek_val s.now result }
    ensures least { IfSome result (λ next. 6 ≤ next.used) }
{
    if s.len() < 6 {
        return None;
    }
    let key = coding::number_of(&s[2..], 2);
    let size = coding::number_of(&s[4..], 2) as usize;
    if s.len() - 6 < size {
        return None;
    }
    Some(Next {
        key,
        used: 6 + size,
    })
}

// An item's record: its tag, and the length of its value.
#[derive(Clone, Copy, Debug, PartialEq, Eq)]
pub struct Field {
    pub tag: u64,
    pub size: usize,
}

// The record at the start of s, its mark passed over: 17.
#[tactic(auto, using(crate::proofs::Spans::no_field, crate::proofs::Spans::a_field, crate::proofs::Spans::not_named))]
pub fn field_of(s: &[u8], set: bool) -> Result<Field, Refusal>
    ensures { told_field result ≡ field_answer (field (level_of set) (drop 2 s.now)) }
{
    let Some(next) = val_next(s) else {
        return Err(Refusal::BadRecord);
    };
    if !items::nameable_of(set, next.key) {
        return Err(Refusal::BadRecord);
    }
    Ok(Field {
        tag: next.key,
        size: next.used - 6,
    })
}

// The bytes of a `TI`, or of a `TG` where that may follow too.
#[tactic(auto, using(crate::proofs::Spans::val_room), unfolding(crate::specs::Records::record_size))]
fn record_size(s: &[u8], tg: bool) -> usize
    ensures counted { result ≡ record_size tg s.now }
    ensures within { result ≤ length s.now }
{
    if is_mark(s, 0, TI) {
        return match val_next(s) {
            Some(next) => next.used,
            None => 0,
        };
    }
    if tg && is_mark(s, 0, TG) && 10 <= s.len() {
        return 10;
    }
    0
}

// The bytes of such records, one after the other.
#[tactic(auto, using(crate::proofs::Spans::span_end, crate::proofs::Spans::span_stop, crate::proofs::Spans::span_on))]
fn span_of(s: &[u8], tg: bool) -> usize
    ensures counted { result ≡ span tg 0 s.now }
    ensures within { result ≤ length s.now }
{
    let mut q: usize = 0;
    while q < s.len() {
        let u = record_size(&s[q..], tg);
        if u == 0 {
            return q;
        }
        q += u;
    }
    q
}

// A target with its `TI`s.
#[tactic(auto, using(crate::proofs::Spans::target_cut, crate::proofs::Spans::target_whole, crate::proofs::Spans::target_bare))]
fn target_next(s: &[u8]) -> Option<Next>
    ensures { Peeked peek_target s.now result }
{
    if s.len() < 10 {
        return None;
    }
    let key = coding::eight_of(&s[2..]);
    // one that holds nothing, at once: the longest look back is over these
    if is_mark(s, 10, TG) {
        return Some(Next { key, used: 10 });
    }
    let n = span_of(&s[10..], false);
    Some(Next { key, used: 10 + n })
}

// The series with its targets, or an item.
#[tactic(auto, using(crate::proofs::Spans::is_room, crate::proofs::Spans::part_series, crate::proofs::Spans::part_item))]
fn part_next(s: &[u8]) -> Option<Next>
    ensures { Peeked peek_part s.now result }
{
    if is_mark(s, 0, TS) {
        let n = span_of(&s[2..], true);
        return Some(Next {
            key: 101,
            used: 2 + n,
        });
    }
    val_next(s)
}

// A target by its id; an item by its tag, and in the set the series by 101.
#[tactic(auto, unfolding(crate::specs::Records::peek_record))]
pub fn record_next(s: &[u8], ids: bool, set: bool) -> Option<Next>
    ensures { Peeked (peek_record ids set) s.now result }
{
    if ids {
        return target_next(s);
    }
    if set { part_next(s) } else { val_next(s) }
}
