// Where a target would be added or dropped: the series, the pack with an id in it, how many packs there are, and the set's tag 6.
ghost use Rattle.std.specs.Prelude.{◌≡◌, ◌+◌, ◌≤◌, ◌<◌, true, length, drop};
ghost use Rattle.format.specs.Answer.{ok, got};
ghost use Rattle.format.specs.Coding.{len_of};
ghost use Rattle.format.specs.Table.{Form};
ghost use Rattle.items.specs.Meet.{form_of};
ghost use Rattle.tally.specs.Runs.{Ran, series_run};
ghost use Rattle.find.specs.Spots.{packs_of};
ghost use Rattle.find.specs.Places.{SetOf, kept_of};
ghost use Rattle.find.specs.Series.{LeadOf, InWidth, AlikeAsked, AlikePassed, packs_spot, spot_within, series_in};

use super::{Spot, item_spot, no_spot, stop_of};

// In the bytes of a series: where the pack with an id begins, what follows it, and how many packs there are. Where there is no such pack,
// both are the end.
#[derive(Clone, Copy)]
pub struct Packs {
    pub at: usize,
    pub next: usize,
    pub count: usize,
}

// In the bytes of a packet's set: where the series begins, its packs, the pack with an id, what follows that, where the series ends, and the
// entries, before the checksum; tag 6's item and what follows it; and how many packs there are. Where there is no such pack, it would begin
// and end at the series' end; no series, at the entries' end, and so tag 6.
#[derive(Clone, Copy)]
pub struct Series {
    pub at: usize,
    pub packs: usize,
    pub pack: usize,
    pub last: usize,
    pub tail: usize,
    pub stop: usize,
    pub six: usize,
    pub after: usize,
    pub count: usize,
}

// A walk that passed some packs of a series: where it stands, and how many.
#[derive(Clone, Copy)]
pub struct Run {
    pub at: usize,
    pub count: usize,
}

// The first byte of an id as it is coded. No pack has an id of 2^63 or more.
fn lead_of(id: u64) -> u8
    ensures { LeadOf id result }
{
    if id < 128 {
        return id as u8;
    }
    let mut m = coding::widths::above7(id);
    while 128 <= m {
        m = coding::widths::above7(m);
    }
    (128 + m) as u8
}

// Whether the length at p is `size`, in WIDTH bytes: the first of two is 129.
fn is_length<const WIDTH: usize>(s: &[u8], p: usize, size: usize) -> bool
    requires { InWidth WIDTH size × (p + 2 < length s.now) }
    ensures { result ≡ true → len_of (drop p s.now) ≡ ok (got size WIDTH) }
{
    (WIDTH == 1 || s[p] == 129) && s[p + WIDTH - 1] as usize == size
}

// Past the packs with this length in WIDTH bytes, up to one whose id begins with `lead`. Where the next begins waits for no load.
fn alike_in<const WIDTH: usize>(s: &[u8], from: usize, size: usize, lead: u8) -> Run
    requires { InWidth WIDTH size × AlikeAsked s.now from }
    ensures { AlikePassed s.now from lead result }
{
    let mut p = from;
    let mut count: usize = 0;
    while p + 2 < s.len() && is_length::<WIDTH>(s, p, size) && s[p + WIDTH] != lead {
        p = p + WIDTH + size;
        count += 1;
    }
    Run { at: p, count }
}

// Past the packs with the same bytes of length as the one before: packs are mostly as long as that.
fn alike(s: &[u8], from: usize, width: usize, size: usize, lead: u8) -> Run
    requires { (width ≡ 1 → size < 128) × AlikeAsked s.now from }
    ensures { AlikePassed s.now from lead result }
{
    match width {
        1 => alike_in::<1>(s, from, size, lead),
        2 => alike_in::<2>(s, from, size, lead),
        _ => Run { at: from, count: 0 },
    }
}

// All packs of a series. Ids stand once, so that the one found is the first.
fn packs_of(s: &[u8], id: u64) -> Packs
    requires { (length s.now ≤ 8192) × ((f : Form) × Ran (series_run f s.now)) }
    ensures { (f : Form) → Ran (series_run f s.now) → result ≡ packs_spot id (packs_of f s.now) }
{
    let lead = lead_of(id);
    let mut p: usize = 0;
    let mut at: usize = 0;
    let mut next: usize = 0;
    let mut count: usize = 0;
    while p < s.len() {
        let Ok(head) = heads::quick_pack_head(&s[p..]) else {
            return Packs { at, next, count };
        };
        let end = p + head.width + head.size;
        if at == next {
            next = end;
            at = if head.key == id { p } else { end };
        }
        let run = alike(s, end, head.width, head.size, lead);
        if at == next {
            at = run.at;
            next = run.at;
        }
        count = count + 1 + run.count;
        p = run.at;
    }
    Packs { at, next, count }
}

// What was found in the set, or where its entries end.
fn within(a: Spot, stop: usize) -> Spot
    ensures { result ≡ spot_within a stop }
{
    if a.at < a.next {
        return a;
    }
    no_spot(stop)
}

// The series, the pack with the id, and tag 6.
pub fn series_of(s: &[u8], alone: bool, id: u64) -> Series
    requires { SetOf (form_of alone) s.now }
    ensures { result ≡ series_in id (kept_of (form_of alone) s.now) }
{
    let stop = stop_of(s, alone);
    let six = within(item_spot(s, true, 6), stop);
    let series = within(item_spot(s, true, 101), stop);
    let packs = packs_of(&s[series.from..series.next], id);
    Series {
        at: series.at,
        packs: series.from,
        pack: series.from + packs.at,
        last: series.from + packs.next,
        tail: series.next,
        stop,
        six: six.at,
        after: six.next,
        count: packs.count,
    }
}
