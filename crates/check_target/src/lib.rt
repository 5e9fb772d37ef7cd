// The records of a target that is to be added: one `TG` and its `TI`s, to the end. What they hold and how many bytes their pack has, or the first
// refusal.
#![tactic(auto)]

ghost use Rattle.std.specs.Prelude.{◌≡◌, ◌≤◌, ◌<◌, true, false, length};
ghost use Rattle.format.specs.Targets.{new_target};
ghost use Rattle.items.specs.Meet.{form_of};
ghost use Rattle.tally.specs.Meet.{walked};
ghost use Rattle.tally_records.specs.Going.{RecordsFrom};
ghost use Rattle.check_target.specs.Meet.{vals_told, target_told, walk_vals, vals_of, ValsAs, ToldAs};

use coding::refusals::{Fault, Refusal};
use heads::{Look, records};
use items::Table;
use items::quick::Glances;
use tally::Walked;
use tally::stages::Stage;

// The bits of the tags that a target holds, and how many bytes its items have, in their shortest form; more than a packet may have, where
// there are more.
#[derive(Clone, Copy, Debug, PartialEq, Eq)]
pub struct Vals {
    pub held: u64,
    pub normal: usize,
}

// The id, those bits, and the bytes of the pack, its length with them.
#[derive(Clone, Copy, Debug, PartialEq, Eq)]
pub struct Told {
    pub id: u64,
    pub held: u64,
    pub size: usize,
}

// More records than a packet can hold, one by one: they are summed up in nothing, as there is no end to their bytes.
fn long_vals(s: &[u8], alone: bool) -> Result<Vals, Refusal>
    requires { 65536 < length s.now }
    ensures { ValsAs (vals_of (form_of alone) s.now) (vals_told result) }
{
    let table = Table::new();
    let look = Look::Records { set: false };
    let mut bits = [0u64; 64];
    let mut p: usize = 0;
    let mut clear: usize = 0;
    let mut held: u64 = 0;
    let mut top: u64 = 0;
    let mut low: u64 = u64::MAX;
    while p < s.len() {
        if !records::is_mark(s, p, records::TI) {
            return Err(Refusal::BadRecord);
        }
        let piece = check_records::value_at(&table, s, p, clear, false, alone, top, low)?;
        clear = repeats::clear::after(s, p, clear, top, low, piece.tag, look, &mut bits);
        held = held | tally::bit_of(piece.tag);
        top = tally::larger(top, piece.tag);
        low = tally::smaller(low, piece.tag);
        p = p + 6 + piece.size;
    }
    Ok(Vals {
        held,
        normal: 65536,
    })
}

// What a walk over all records says: 17 where it did not come to the end, at a record of another kind.
fn walked_vals(w: Result<Walked, Fault>, size: usize) -> Result<Vals, Refusal>
    ensures { vals_told result ≡ walk_vals (walked w) size }
{
    match w {
        Ok(all) => {
            if all.sizes.sheet != size {
                return Err(Refusal::BadRecord);
            }
            Ok(Vals {
                held: all.held,
                normal: all.sizes.normal,
            })
        }
        Err(fault) => Err(fault.refusal),
    }
}

// From where a quick way over the records ended: the table is laid out here, so that those told at a glance have none of it.
fn rest_vals(glances: &Glances, s: &[u8], alone: bool, d: Stage) -> Result<Vals, Refusal>
    requires { (length s.now ≤ 65536) × RecordsFrom false (form_of alone) s.now d }
    ensures { ValsAs (vals_of (form_of alone) s.now) (vals_told result) }
{
    let table = Table::new();
    let mut bits = [0u64; 64];
    let all = check_records::item_records(&table, glances, s, false, alone, d, &mut bits);
    walked_vals(all, s.len())
}

// The `TI`s. Most are told at a glance.
fn vals_of(glances: &Glances, s: &[u8], alone: bool) -> Result<Vals, Refusal>
    ensures { ValsAs (vals_of (form_of alone) s.now) (vals_told result) }
{
    if 65536 < s.len() {
        return long_vals(s, alone);
    }
    let d = quick_records::quick::glance_records(glances, s, false, alone);
    if d.at == s.len() {
        return Ok(Vals {
            held: d.held,
            normal: d.sizes.normal,
        });
    }
    rest_vals(glances, s, alone, d)
}

// A target's records: 17, and the item numbers, each record in its turn.
pub fn check(glances: &Glances, r: &[u8], alone: bool) -> Result<Told, Refusal>
    ensures { ToldAs (new_target (form_of alone) r.now) (target_told result) }
{
    if r.len() < 10 || !records::is_mark(r, 0, records::TG) {
        return Err(Refusal::BadRecord);
    }
    let id = coding::eight_of(&r[2..]);
    if 9223372036854775807 < id {
        return Err(Refusal::BadRecord);
    }
    let vals = vals_of(glances, &r[10..], alone)?;
    let body = coding::widths::oid_width(id) + vals.normal;
    Ok(Told {
        id,
        held: vals.held,
        size: coding::widths::len_width(body) + body,
    })
}
