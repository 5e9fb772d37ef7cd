// A packet's rows, written as numbers, four to a row, into a lent table as the item walk and the pack walk go over a packet that was checked.
#![tactic(auto)]

ghost use Rattle.std.specs.Prelude.{length};
ghost use Rattle.format.specs.Table.{Form};
ghost use Rattle.items.specs.Meet.{level_of};
ghost use Rattle.write_rows.specs.Meet.{LevelAsked, SeriesAsked, LevelLeft, SeriesLeft};

// The items of a level that begins at an offset: the set, or a pack; how many numbers.
#[cycle(item_rows_pack_rows)]
#[tactic(auto, using(crate::proofs::LevelTurns::level_turns))]
pub fn item_rows(s: &[u8], at: usize, target: u64, set: bool, out: &mut [u64]) -> usize
    requires { (f : Form) × LevelAsked (level_of set) target at s.now (length out.old) f }
    ensures { LevelLeft (level_of set) target at s.now out.old result out.new }
{
    let mut p: usize = 0;
    let mut k: usize = 0;
    while p < s.len() {
        let Ok(head) = heads::item_head(&s[p..], set) else {
            return k;
        };
        let from = p + head.used + head.width;
        let next = from + head.size;
        let m = stores::put_row(
            out,
            k,
            target,
            head.key,
            (at + from) as u64,
            head.size as u64,
        );
        k = if tally::is_series(set, head.key) {
            m + pack_rows(&s[from..next], at + from, &mut out[m..])
        } else {
            m
        };
        p = next;
    }
    k
}

// The packs of a series that begins at an offset; how many numbers.
#[cycle(item_rows_pack_rows)]
#[tactic(auto, using(crate::proofs::SeriesTurns::series_turns))]
pub fn pack_rows(s: &[u8], at: usize, out: &mut [u64]) -> usize
    requires { (f : Form) × SeriesAsked at s.now (length out.old) f }
    ensures { SeriesLeft at s.now out.old result out.new }
{
    let mut p: usize = 0;
    let mut k: usize = 0;
    let mut n: u64 = 1;
    while p < s.len() {
        let Ok(head) = heads::quick_pack_head(&s[p..]) else {
            return k;
        };
        let from = p + head.width + head.used;
        let next = p + head.width + head.size;
        let m = stores::put_row(out, k, n, 0, (at + p + head.width) as u64, head.size as u64);
        k = m + item_rows(&s[from..next], at + from, n, false, &mut out[m..]);
        n += 1;
        p = next;
    }
    k
}

pub mod table; // table.rt: rows as a lent slice of structs
