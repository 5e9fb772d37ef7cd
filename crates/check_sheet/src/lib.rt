// The whole sheet: `PK`, the form, and the parts.
#![tactic(auto)]

ghost use Rattle.std.specs.Prelude.{◌≡◌, ◌≤◌, true, length};
ghost use Rattle.format.specs.Table.{set};
ghost use Rattle.format.specs.Sheet.{unsheet};
ghost use Rattle.items.specs.Meet.{form_of};
ghost use Rattle.tally.specs.Meet.{walked, Within};
ghost use Rattle.tally.specs.Going.{Begun};
ghost use Rattle.tally_records.specs.Meet.{records_walk};
ghost use Rattle.tally_records.specs.Going.{RecordsFrom};
ghost use Rattle.quick_records.specs.Going.{TargetsPassed, first_tag};
ghost use Rattle.check_sheet.specs.Meet.{sheeted, sheeted_of};
ghost use Rattle.check_sheet.specs.Sets.{SetAsked, SeriesNext, targets_after};

use coding::refusals::{Fault, Refusal, later};
use heads::records;
use items::Table;
use items::quick::Glances;
use quick_records::{quick, targets};
use tally::stages::Stage;
use tally::{Walked, stages};

// Its form, the bytes of its packet's set but for the checksum, and those of the series' packs.
#[derive(Clone, Copy, Debug, PartialEq, Eq)]
pub struct Sheeted {
    pub alone: bool,
    pub normal: usize,
    pub inner: usize,
}

// ---- its set

// Whether the first record may begin a set.
fn starts(s: &[u8], alone: bool) -> bool
    ensures { result ≡ true → Begun true (form_of alone) 0 (first_tag s.now) }
{
    4 <= s.len() && items::begins(true, alone, coding::number_of(&s[2..], 2), true)
}

// The set from its start, as far as its records are told at a glance.
fn set_glanced(glances: &Glances, s: &[u8], alone: bool) -> Stage
    requires { length s.now ≤ 65536 }
    ensures { RecordsFrom true (form_of alone) s.now result }
{
    if starts(s, alone) {
        return quick::glance_rising(glances, s, true, alone, quick::first_tag(s));
    }
    stages::stage_at(0, tally::weights::nothing(), 0, 0, u64::MAX)
}

// Whether the series stands next, a target in it, and is told to be new: items stand before it, and none has a tag so high.
fn is_series_next(s: &[u8], q: Stage) -> bool
    ensures { result ≡ true → SeriesNext s.now q }
{
    tally::is_series_new(q.at, q.top)
        && records::is_mark(s, q.at, records::TS)
        && records::is_mark(s, q.at + 2, records::TG)
}

// The set from its series on, one by one from where the quick ways over its targets ended: the table is laid out here, so that a sheet passed at a
// glance has none of it. A refusal among the targets is the set's.
fn series_rest(
    glances: &Glances,
    s: &[u8],
    alone: bool,
    q: Stage,
    d: Stage,
    bits: &mut [u64; 64],
) -> Result<Walked, Fault>
    requires { SetAsked (form_of alone) s.now q × SeriesNext s.now q × TargetsPassed (form_of alone) (targets_after s.now q) d }
    ensures { (walked result ≡ records_walk set (form_of alone) s.now) × Within (walked result) (length s.now) }
{
    let table = Table::new();
    let p = q.at;
    let packs = check_records::target_records(&table, glances, &s[p + 2..], alone, d, bits);
    let series = later(tally::series_of(packs, 2), p)?;
    let after = tally_records::after(q, 101, series.sizes, series.held);
    check_records::item_records(&table, glances, s, true, alone, after, bits)
}

// The same where the quick way over targets whose ids rise or fall ended: ids that do neither are noted in bits that are laid out here.
fn series_noted(
    glances: &Glances,
    s: &[u8],
    alone: bool,
    q: Stage,
    d: Stage,
) -> Result<Walked, Fault>
    requires { SetAsked (form_of alone) s.now q × SeriesNext s.now q × TargetsPassed (form_of alone) (targets_after s.now q) d }
    ensures { (walked result ≡ records_walk set (form_of alone) s.now) × Within (walked result) (length s.now) }
{
    let t = &s[q.at + 2..];
    let mut bits = [0u64; 64];
    let e = targets::noted(glances, t, alone, d, &mut bits);
    if e.at == t.len() {
        return Ok(stages::walked(stages::after_series(q, s.len(), e.sizes)));
    }
    series_rest(glances, s, alone, q, e, &mut bits)
}

// The set from its series on, which stands next. Most sets end with it, its targets all told at a glance.
fn series(glances: &Glances, s: &[u8], alone: bool, q: Stage) -> Result<Walked, Fault>
    requires { SetAsked (form_of alone) s.now q × SeriesNext s.now q }
    ensures { (walked result ≡ records_walk set (form_of alone) s.now) × Within (walked result) (length s.now) }
{
    let t = &s[q.at + 2..];
    let d = targets::rising(glances, t, alone);
    if d.at == t.len() {
        return Ok(stages::walked(stages::after_series(q, s.len(), d.sizes)));
    }
    // lent on as a part, so that the compiler keeps the slice itself in registers
    series_noted(glances, &s[0..], alone, q, d)
}

// The records of the set one by one, from where the quick way over them ended; what they are lent is laid out here too.
fn set_rest(glances: &Glances, s: &[u8], alone: bool, q: Stage) -> Result<Walked, Fault>
    requires { SetAsked (form_of alone) s.now q }
    ensures { (walked result ≡ records_walk set (form_of alone) s.now) × Within (walked result) (length s.now) }
{
    let table = Table::new();
    let mut bits = [0u64; 64];
    check_records::item_records(&table, glances, s, true, alone, q, &mut bits)
}

// The records of the set. Most sets are passed at a glance, to the end of their series.
fn set_records(glances: &Glances, s: &[u8], alone: bool) -> Result<Walked, Fault>
    requires { length s.now ≤ 65536 }
    ensures { (walked result ≡ records_walk set (form_of alone) s.now) × Within (walked result) (length s.now) }
{
    let q = set_glanced(glances, s, alone);
    if q.at == s.len() {
        return Ok(stages::walked(q));
    }
    if is_series_next(s, q) {
        return series(glances, s, alone, q);
    }
    // as a part here too
    set_rest(glances, &s[0..], alone, q)
}

// ---- the whole

// The sizes of a sheet's packet, or the refusal: 1, 17, the parts, which begin at 3, 14 where a standalone sheet has none.
pub fn check(s: &[u8]) -> Result<Sheeted, Fault>
    ensures { sheeted result ≡ sheeted_of (unsheet s.now) }
{
    if 65536 < s.len() {
        return Err(Refusal::OverLimit.at(0));
    }
    if s.len() < 3 || !records::is_mark(s, 0, records::PK) || 1 < s[2] {
        return Err(Refusal::BadRecord.at(0));
    }
    let alone = s[2] == 1;
    let glances = Glances::new();
    let parts = later(set_records(&glances, &s[3..], alone), 3)?;
    if alone && parts.sizes.rows == 0 {
        return Err(Refusal::Missing.at(s.len()));
    }
    Ok(Sheeted {
        alone,
        normal: parts.sizes.normal,
        inner: parts.sizes.inner,
    })
}
