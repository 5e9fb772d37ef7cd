// The entries of a packet's set in normal form, written into a lent output as the item walk and the pack walk go over a packet that was checked.
#![tactic(auto)]

ghost use Rattle.std.specs.Prelude.{length};
ghost use Rattle.items.specs.Meet.{form_of, level_of};
ghost use Rattle.stores.specs.Puts.{Puts, Fills};
ghost use Rattle.write_normal.specs.Meet.{item_normal, level_normal, series_normal, ItemAsked, LevelAsked, SeriesAsked};

use items::Table;
use items::quick::Glances;

// ---- an item

// An item in normal form, from its value as it stands in the packet; where it ends. The set's checksum has no place.
#[tactic(auto, using(crate::proofs::Pieces::item_put))]
pub fn put_normal(table: &Table, out: &mut [u8], at: usize, set: bool, tag: u64, v: &[u8]) -> usize
    requires { ItemAsked (level_of set) tag v.now at (length out.old) }
    ensures { Puts out.old at (item_normal (level_of set) tag v.now) result out.new }
{
    if set && tag == 1 {
        return at;
    }
    let rule = items::rule_of(table, set, tag);
    let n = items::short_size(rule, v);
    store_coded::put_short(out, at, tag, &v[v.len() - n..])
}

// ---- the walks

// The items of a level: the set, whose series has `inner` bytes of packs in normal form, or a pack; how many bytes.
#[cycle(item_normal_pack_normal)]
#[tactic(auto, using(crate::proofs::Walks::item_turns))]
pub fn item_normal(
    table: &Table,
    glances: &Glances,
    s: &[u8],
    set: bool,
    alone: bool,
    inner: usize,
    bits: &mut [u64; 64],
    out: &mut [u8],
) -> usize
    requires { LevelAsked (level_of set) (form_of alone) s.now inner (length out.old) }
    ensures { Fills out.old (level_normal (level_of set) (form_of alone) s.now) result out.new }
{
    let mut p: usize = 0;
    let mut k: usize = 0;
    while p < s.len() {
        let Ok(head) = heads::item_head(&s[p..], set) else {
            return k;
        };
        let from = p + head.used + head.width;
        let next = from + head.size;
        k = if tally::is_series(set, head.key) {
            let m = store_coded::put_series(out, k, inner);
            m + pack_normal(table, glances, &s[from..next], alone, bits, &mut out[m..])
        } else {
            put_normal(table, out, k, set, head.key, &s[from..next])
        };
        p = next;
    }
    k
}

// The packs of a series; how many bytes.
#[cycle(item_normal_pack_normal)]
#[tactic(auto, using(crate::proofs::Walks::pack_turns))]
pub fn pack_normal(
    table: &Table,
    glances: &Glances,
    s: &[u8],
    alone: bool,
    bits: &mut [u64; 64],
    out: &mut [u8],
) -> usize
    requires { SeriesAsked (form_of alone) s.now (length out.old) }
    ensures { Fills out.old (series_normal (form_of alone) s.now) result out.new }
{
    let mut p: usize = 0;
    let mut k: usize = 0;
    while p < s.len() {
        let Ok(head) = heads::quick_pack_head(&s[p..]) else {
            return k;
        };
        let from = p + head.width + head.used;
        let next = p + head.width + head.size;
        let items = &s[from..next];
        let Ok(pack) = check_items::item_walk(table, glances, items, false, alone, bits) else {
            return k;
        };
        let n = head.used + pack.sizes.normal;
        let m = store_coded::put_pack(out, k, n, head.key);
        // No item grows, so items that keep their size are in normal form.
        k = if n == head.size {
            stores::copy_all(out, m, items)
        } else {
            m + item_normal(table, glances, items, false, alone, 0, bits, &mut out[m..])
        };
        p = next;
    }
    k
}
