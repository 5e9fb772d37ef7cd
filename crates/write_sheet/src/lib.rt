// A packet's sheet, written into a lent output as the item walk and the pack walk go over a packet that was checked.
#![tactic(auto)]

ghost use Rattle.std.specs.Prelude.{◌≡◌, ℕ, ◌+◌, ◌≤◌, ◌<◌, length, List, ◌∷◌};
ghost use Rattle.std.proofs.lemmas.List.Edits.{sets};
ghost use Rattle.format.specs.Coding.{fixed};
ghost use Rattle.format.specs.Sheet.{mark_number, mark_of, TG};
ghost use Rattle.format.specs.Table.{Form, set, pack};
ghost use Rattle.items.specs.Meet.{level_of};
ghost use Rattle.stores.specs.Puts.{Puts};
ghost use Rattle.write_sheet.specs.Meet.{record_of, item_sheet, LevelAsked, SeriesAsked, LevelLeft, SeriesLeft};
ghost use Rattle.write_sheet.specs.Quick.{RestAsked, RestLeft};

use heads::records;
use items::Table;

// ---- records

// The mark of an item, as a number: `IT` in the set, `TI` in a target.
fn mark_of(set: bool) -> u64
    ensures { result ≡ mark_number (mark_of (level_of set)) }
{
    if set { records::IT } else { records::TI }
}

// An item's record; where it ends.
#[tactic(auto, using(crate::proofs::Records::record_long, crate::proofs::Records::item_stored))]
fn put_item(out: &mut [u8], at: usize, set: bool, tag: u64, v: &[u8]) -> usize
    requires { at + length (record_of set tag v.now) ≤ length out.old }
    ensures { Puts out.old at (record_of set tag v.now) result out.new }
{
    let a = stores::put_number(out, at, mark_of(set), 2);
    let b = stores::put_number(out, a, tag, 2);
    let c = stores::put_number(out, b, v.len() as u64, 2);
    stores::copy(out, c, v)
}

// An item's record from its value as it stands in the packet; where it ends. The set's checksum has none.
#[tactic(auto, using(crate::proofs::Records::plain_put))]
fn put_plain(table: &Table, out: &mut [u8], at: usize, set: bool, tag: u64, v: &[u8]) -> usize
    requires { (0 < length v.now) × (at + length (item_sheet (level_of set) tag v.now) ≤ length out.old) }
    ensures { Puts out.old at (item_sheet (level_of set) tag v.now) result out.new }
{
    if set && tag == 1 {
        return at;
    }
    let rule = items::rule_of(table, set, tag);
    let n = items::short_size(rule, v);
    put_item(out, at, set, tag, &v[v.len() - n..])
}

// A target's mark and id; where they end. Most ids have at most two bytes: the zeros before those go with the mark.
#[tactic(auto, using(crate::proofs::Records::target_stored, crate::proofs::Records::short_target_stored))]
fn put_target(out: &mut [u8], at: usize, id: u64) -> usize
    requires { at + 10 ≤ length out.old }
    ensures { (result ≡ at + 10) × (out.new ≡ sets out.old at (TG.0 ∷ TG.1 ∷ fixed 8 id)) }
{
    if id < 65536 {
        let b = stores::put_number(out, at, records::TG << 48, 8);
        return stores::put_number(out, b, id, 2);
    }
    let a = stores::put_number(out, at, records::TG, 2);
    stores::put_number(out, a, id, 8)
}

// ---- the walks

// The items of a level from a place on, where at bytes of its sheet are written; how many bytes the sheet has.
#[cycle(pack_items_pack_sheet_rest_sheet)]
#[tactic(auto, using(crate::proofs::Turns::rest_turns))]
fn rest_sheet(table: &Table, s: &[u8], from: usize, at: usize, set: bool, out: &mut [u8]) -> usize
    requires { (f : Form) × (o : List ℕ) × RestAsked set s.now out.old from at f o }
    ensures { RestLeft set s.now out.old from at result out.new }
{
    let mut p = from;
    let mut k = at;
    while p < s.len() {
        let Ok(head) = heads::item_head(&s[p..], set) else {
            return k;
        };
        let from = p + head.used + head.width;
        let next = from + head.size;
        k = if tally::is_series(set, head.key) {
            let m = stores::put_number(out, k, records::TS, 2);
            m + pack_sheet(table, &s[from..next], &mut out[m..])
        } else {
            put_plain(table, out, k, set, head.key, &s[from..next])
        };
        p = next;
    }
    k
}

// The items of a pack, the quick way first; how many bytes.
#[cycle(pack_items_pack_sheet_rest_sheet)]
fn pack_items(table: &Table, s: &[u8], out: &mut [u8]) -> usize
    requires { (f : Form) × LevelAsked pack s.now (length out.old) f }
    ensures { LevelLeft pack s.now out.old result out.new }
{
    let q = quick::small_items(s, out);
    let p = q.used;
    if s.len() <= p {
        return q.wrote;
    }
    rest_sheet(table, s, p, q.wrote, false, out)
}

// The packs of a series, the quick way first; how many bytes.
#[cycle(pack_items_pack_sheet_rest_sheet)]
#[tactic(auto, using(crate::proofs::Turns::pack_turns))]
pub fn pack_sheet(table: &Table, s: &[u8], out: &mut [u8]) -> usize
    requires { (f : Form) × SeriesAsked s.now (length out.old) f }
    ensures { SeriesLeft s.now out.old result out.new }
{
    let q = quick::packs(s, out);
    let mut p = q.used;
    let mut k = q.wrote;
    while p < s.len() {
        let Ok(head) = heads::quick_pack_head(&s[p..]) else {
            return k;
        };
        let from = p + head.width + head.used;
        let next = p + head.width + head.size;
        let m = put_target(out, k, head.key);
        k = m + pack_items(table, &s[from..next], &mut out[m..]);
        p = next;
    }
    k
}

// The items of the set; how many bytes.
pub fn item_sheet(table: &Table, s: &[u8], out: &mut [u8]) -> usize
    requires { (f : Form) × LevelAsked set s.now (length out.old) f }
    ensures { LevelLeft set s.now out.old result out.new }
{
    rest_sheet(table, s, 0, 0, true, out)
}

pub mod quick; // quick.rt: the records of items told at a glance
