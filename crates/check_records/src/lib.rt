// The walks that check a sheet: one record at a time, the records of a level and the targets of the series, with the sizes of what they find.
#![tactic(auto)]

ghost use Rattle.std.specs.Prelude.{◌≡◌, ◌^◌, ◌≤◌, ◌<◌, true, false, length, drop};
ghost use Rattle.format.specs.Sheet.{TS, is};
ghost use Rattle.items.specs.Meet.{form_of, level_of};
ghost use Rattle.heads.specs.Meet.{peek, Clear};
ghost use Rattle.tally.specs.Meet.{pieced, walked, Within};
ghost use Rattle.tally_records.specs.Meet.{IsValue, IsSeries, IsPart, IsTarget, value_next, records_walk, targets_walk};
ghost use Rattle.tally_records.specs.Going.{RecordsFrom};
ghost use Rattle.quick_records.specs.Going.{TargetsPassed};
ghost use Rattle.check_records.specs.Asked.{ValueAsked, PartAsked};

use coding::refusals::{Fault, Refusal, later, placed};
use heads::{Look, records};
use items::Table;
use items::quick::Glances;
use tally::stages::Stage;
use tally::{Piece, Walked};

// ---- one record; no key before p is above top or below low, and none repeats before clear

// An `IT` or a `TI`, its mark passed over: 17, 7, 9, 13, 14, 11, 12, and 17 for a number that is not shortest.
pub fn value_at(
    table: &Table,
    s: &[u8],
    p: usize,
    clear: usize,
    set: bool,
    alone: bool,
    top: u64,
    low: u64,
) -> Result<Piece, Refusal>
    requires { ValueAsked s.now p clear set }
    ensures { IsValue set (form_of alone) s.now p top low (pieced result) }
{
    let t = &s[p..];
    let field = records::field_of(t, set)?;
    if field.size == 0 {
        return Err(Refusal::EmptyValue);
    }
    let dup = repeats::is_seen(s, p, clear, top, low, field.tag, Look::Records { set });
    items::standing_of(set, alone, dup, p == 0, field.tag, true)?;
    let rule = items::rule_of(table, set, field.tag);
    let v = &t[6..6 + field.size];
    items::valued_of(rule, v)?;
    let short = items::short_size(rule, v);
    if short != field.size {
        return Err(Refusal::BadRecord);
    }
    Ok(Piece {
        tag: field.tag,
        from: 6,
        size: field.size,
        short,
    })
}

// A `TS`, before its targets: 17 if no `TG` follows, 9, 14.
fn series_at(
    s: &[u8],
    p: usize,
    clear: usize,
    alone: bool,
    top: u64,
    low: u64,
) -> Result<Piece, Refusal>
    requires { (p ≤ length s.now) × Clear (peek true false true) s.now clear × (is TS (drop p s.now) ≡ true) }
    ensures { IsSeries (form_of alone) s.now p top low (pieced result) }
{
    if !records::is_mark(s, p + 2, records::TG) {
        return Err(Refusal::BadRecord);
    }
    let dup = repeats::is_seen(s, p, clear, top, low, 101, Look::Records { set: true });
    items::standing_of(true, alone, dup, p == 0, 101, true)?;
    Ok(Piece {
        tag: 101,
        from: 2,
        size: 0,
        short: 0,
    })
}

// Whether an item's record stands at p: in the set an `IT`, in a target whatever goes on.
fn is_value(s: &[u8], p: usize, set: bool) -> bool
    ensures { result ≡ value_next (level_of set) (drop p s.now) }
{
    !set || records::is_mark(s, p, records::IT)
}

// The record at p of a level s: of the set an `IT` or a `TS`, else a `TI`. Most are told at a glance.
pub fn part_at(
    table: &Table,
    glances: &Glances,
    s: &[u8],
    p: usize,
    clear: usize,
    set: bool,
    alone: bool,
    top: u64,
    low: u64,
) -> Result<Piece, Refusal>
    requires { PartAsked s.now p clear set }
    ensures { IsPart set (form_of alone) s.now p top low (pieced result) }
{
    if let Some(told) = quick_records::quick::glance_begun(glances, s, p, set, alone, top) {
        let size = told.next - (p + 6);
        return Ok(Piece {
            tag: told.tag,
            from: 6,
            size,
            short: size,
        });
    }
    // at one place, so that the compiler puts it in line
    if is_value(s, p, set) {
        return value_at(table, s, p, clear, set, alone, top, low);
    }
    if records::is_mark(s, p, records::TS) {
        return series_at(s, p, clear, alone, top, low);
    }
    Err(Refusal::BadRecord)
}

// The `TG` at p, before its `TI`s: 17, 10. Its id stands for a tag.
fn target_at(s: &[u8], p: usize, clear: usize, top: u64, low: u64) -> Result<Piece, Refusal>
    requires { (p ≤ length s.now) × Clear (peek true true false) s.now clear × (top < 2 ^ 63) }
    ensures { IsTarget s.now p top low (pieced result) }
{
    if s.len() - p < 10 {
        return Err(Refusal::BadRecord);
    }
    let id = coding::eight_of(&s[p + 2..]);
    // held to the limit by the larger: tested alone, it would be read byte by byte
    if 9223372036854775807 < tally::larger(top, id) {
        return Err(Refusal::BadRecord);
    }
    if repeats::is_seen(s, p, clear, top, low, id, Look::Targets) {
        return Err(Refusal::IdRepeated);
    }
    Ok(Piece {
        tag: id,
        from: 10,
        size: 0,
        short: 0,
    })
}

// ---- walks

// The records of a level, the set or a target, from where a quick way over them ended.
#[cycle(item_records_target_records)]
#[tactic(auto, using(crate::proofs::Turns::turns))]
pub fn item_records(
    table: &Table,
    glances: &Glances,
    s: &[u8],
    set: bool,
    alone: bool,
    from: Stage,
    bits: &mut [u64; 64],
) -> Result<Walked, Fault>
    requires { (length s.now ≤ 65536) × RecordsFrom set (form_of alone) s.now from }
    ensures { (walked result ≡ records_walk (level_of set) (form_of alone) s.now) × Within (walked result) (length s.now) }
{
    let look = Look::Records { set };
    let mut q = from;
    let mut clear: usize = 0;
    while q.at < s.len() {
        let p = q.at;
        if !tally_records::goes_on(s, p, set) {
            return Ok(tally::stages::walked(q));
        }
        let read = part_at(table, glances, s, p, clear, set, alone, q.top, q.low);
        let piece = placed(read, p)?;
        let part = if tally::is_series(set, piece.tag) {
            let targets = &s[p + 2..];
            let told = quick_records::targets::rising(glances, targets, alone);
            let series = target_records(table, glances, targets, alone, told, bits);
            later(tally::series_of(series, 2), p)?
        } else {
            tally::one_item(set, piece.tag, piece.size)
        };
        clear = repeats::clear::after(s, p, clear, q.top, q.low, piece.tag, look, bits);
        q = tally_records::after(q, piece.tag, part.sizes, part.held);
    }
    Ok(tally::stages::walked(q))
}

// The targets of the series, from where the quick way over them ended.
#[cycle(item_records_target_records)]
#[tactic(auto, using(crate::proofs::Turns::turns))]
pub fn target_records(
    table: &Table,
    glances: &Glances,
    s: &[u8],
    alone: bool,
    from: Stage,
    bits: &mut [u64; 64],
) -> Result<Walked, Fault>
    requires { (length s.now ≤ 65536) × TargetsPassed (form_of alone) s.now from }
    ensures { (walked result ≡ targets_walk (form_of alone) s.now) × Within (walked result) (length s.now) }
{
    let mut q = quick_records::targets::noted(glances, s, alone, from, bits);
    let mut clear: usize = 0;
    while q.at < s.len() {
        let p = q.at;
        if !records::is_mark(s, p, records::TG) {
            return Ok(tally::stages::walked(q));
        }
        let target = placed(target_at(s, p, clear, q.top, q.low), p)?;
        let id = target.tag;
        let items = &s[p + 10..];
        let told = quick_records::quick::glance_records(glances, items, false, alone);
        // no result goes through memory where all are told at a glance
        let vals = if tally_records::goes_on(items, told.at, false) {
            let walk = item_records(table, glances, items, false, alone, told, bits);
            later(walk, p + 10)?
        } else {
            tally::stages::walked(told)
        };
        placed(tally::ended_of(alone, vals.held), p)?;
        let sum = tally::weights::pack_sizes(coding::widths::oid_width(id), vals.sizes);
        clear = repeats::clear::after(s, p, clear, q.top, q.low, id, Look::Targets, bits);
        q = tally_records::after(q, id, sum, 0);
    }
    Ok(tally::stages::walked(q))
}
