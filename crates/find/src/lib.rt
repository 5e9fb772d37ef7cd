// The one search, in what was checked: the series, the pack with an id, the item with a tag. Each is one loop over heads, to the first hit.
#![tactic(auto)]

ghost use Rattle.std.specs.Prelude.{◌≡◌, ℕ, ◌-◌, ◌≤◌, length};
ghost use Rattle.format.specs.Table.{Form};
ghost use Rattle.format.specs.Edit.{target};
ghost use Rattle.items.specs.Meet.{form_of, level_of};
ghost use Rattle.tally.specs.Runs.{Ran, level_run, series_run};
ghost use Rattle.find.specs.Spots.{no_spot, entry_spot, pack_spot};
ghost use Rattle.find.specs.Places.{holder_of, seal_size, SetOf, place_in, SetPlaced, PackFound, HeldIs};
ghost use Rattle.find.specs.Places.{Sums, place_under, TargetPlaced, FoundIs, BothAre};

pub mod around;

// Where something stands: where it begins, where what its length counts begins (an item's value, a pack's id), where its value or
// its items begin, and what follows it. Where it is not there, all four are the end.
#[derive(Clone, Copy)]
pub struct Spot {
    pub at: usize,
    pub body: usize,
    pub from: usize,
    pub next: usize,
}

// Nothing there, and the end at `at`.
fn no_spot(at: usize) -> Spot
    ensures { result ≡ no_spot at }
{
    Spot {
        at,
        body: at,
        from: at,
        next: at,
    }
}

// The item with this tag in a level: the set, or a pack's items. The same for every form under which the level was accepted.
pub fn item_spot(s: &[u8], set: bool, tag: u64) -> Spot
    requires { (length s.now ≤ 8192) × ((f : Form) × Ran (level_run (level_of set) f s.now)) }
    ensures { (f : Form) → Ran (level_run (level_of set) f s.now) → result ≡ entry_spot (level_of set) f tag s.now }
{
    let mut p: usize = 0;
    while p < s.len() {
        let Ok(head) = heads::quick_item_head(&s[p..], set) else {
            return no_spot(p);
        };
        let from = p + head.used + head.width;
        let next = from + head.size;
        if head.key == tag {
            return Spot {
                at: p,
                body: from,
                from,
                next,
            };
        }
        p = next;
    }
    no_spot(p)
}

// The pack with this id in a series, the same way.
pub fn pack_spot(s: &[u8], id: u64) -> Spot
    requires { (length s.now ≤ 8192) × ((f : Form) × Ran (series_run f s.now)) }
    ensures { (f : Form) → Ran (series_run f s.now) → result ≡ pack_spot f id s.now }
{
    let mut p: usize = 0;
    while p < s.len() {
        let Ok(head) = heads::quick_pack_head(&s[p..]) else {
            return no_spot(p);
        };
        let body = p + head.width;
        let next = body + head.size;
        if head.key == id {
            return Spot {
                at: p,
                body,
                from: body + head.used,
                next,
            };
        }
        p = next;
    }
    no_spot(p)
}

// ---- the place of an item

// Where an item stands in the bytes of a packet's set. For a target's item: where the series begins, its packs, the pack, the pack's id,
// the item, its value, what follows it, where the pack ends, the series, and the entries, before the checksum. Where there is no such
// item, it would begin and end at its level's end. For the set's item all before it are 0, and all that follow are the entries' end.
#[derive(Clone, Copy)]
pub struct Place {
    pub series: usize,
    pub packs: usize,
    pub pack: usize,
    pub body: usize,
    pub at: usize,
    pub from: usize,
    pub next: usize,
    pub last: usize,
    pub tail: usize,
    pub stop: usize,
}

// Where the entries end: before the checksum.
fn stop_of(s: &[u8], alone: bool) -> usize
    requires { seal_size (form_of alone) ≤ length s.now }
    ensures { result ≡ length s.now - seal_size (form_of alone) }
{
    if alone {
        return s.len() - 4;
    }
    s.len()
}

// What stands at a spot of the set, whose entries end at `stop`.
fn place_in(a: Spot, stop: usize) -> Place
    ensures { result ≡ place_in a stop }
{
    Place {
        series: 0,
        packs: 0,
        pack: 0,
        body: 0,
        at: a.at,
        from: a.from,
        next: a.next,
        last: stop,
        tail: stop,
        stop,
    }
}

// An item of the set.
fn set_place(s: &[u8], alone: bool, tag: u64) -> Place
    requires { SetOf (form_of alone) s.now }
    ensures { SetPlaced (form_of alone) tag s.now result }
{
    let stop = stop_of(s, alone);
    let a = item_spot(s, true, tag);
    if a.at < a.next {
        return place_in(a, stop);
    }
    place_in(no_spot(stop), stop)
}

// An item of a target: c is its spot in the pack, b the pack's in the series, a the series' in the set, each counted from where what holds it begins.
fn place_under(a: Spot, b: Spot, c: Spot, stop: usize) -> Place
    requires { Sums a b c }
    ensures { result ≡ place_under a b c stop }
{
    let items = a.from + b.from;
    Place {
        series: a.at,
        packs: a.from,
        pack: a.from + b.at,
        body: a.from + b.body,
        at: items + c.at,
        from: items + c.from,
        next: items + c.next,
        last: a.from + b.next,
        tail: a.next,
        stop,
    }
}

// The series, and the pack with an id in it: each counted from where what holds it begins.
#[derive(Clone, Copy)]
struct Held {
    series: Spot,
    pack: Spot,
}

// The same for every form under which the set was checked; `None` if there is no such target. In line at both calls: a call costs nanoseconds.
#[inline(always)]
fn pack_in(s: &[u8], id: u64) -> Option<Held>
    requires { (f : Form) × SetOf f s.now }
    ensures { (f : Form) → SetOf f s.now → HeldIs f id s.now result }
{
    let series = item_spot(s, true, 101);
    if series.at == series.next {
        return None;
    }
    let pack = pack_spot(&s[series.from..series.next], id);
    if pack.at == pack.next {
        return None;
    }
    Some(Held { series, pack })
}

// An item of the pack.
#[inline(always)]
fn item_in(s: &[u8], alone: bool, held: Held, tag: u64) -> Place
    requires { (id : ℕ) × PackFound (form_of alone) id s.now held.series held.pack }
    ensures { (id : ℕ) → PackFound (form_of alone) id s.now held.series held.pack → TargetPlaced (form_of alone) id tag s.now result }
{
    let packs = &s[held.series.from..held.series.next];
    let item = item_spot(&packs[held.pack.from..held.pack.next], false, tag);
    place_under(held.series, held.pack, item, stop_of(s, alone))
}

// An item of the target with the id; `None` if there is no such target.
fn target_place(s: &[u8], alone: bool, id: u64, tag: u64) -> Option<Place>
    requires { SetOf (form_of alone) s.now }
    ensures { FoundIs (form_of alone) (target id) tag s.now result }
{
    let held = pack_in(s, id)?;
    Some(item_in(s, alone, held, tag))
}

// The same for two items of one target.
pub fn places_of(s: &[u8], alone: bool, id: u64, tag: u64, other: u64) -> Option<(Place, Place)>
    requires { SetOf (form_of alone) s.now }
    ensures { BothAre (form_of alone) id tag other s.now result }
{
    let held = pack_in(s, id)?;
    Some((item_in(s, alone, held, tag), item_in(s, alone, held, other)))
}

// The place of an item; `None` if there is no such target.
pub fn place_of(s: &[u8], alone: bool, set: bool, id: u64, tag: u64) -> Option<Place>
    requires { SetOf (form_of alone) s.now }
    ensures { FoundIs (form_of alone) (holder_of set id) tag s.now result }
{
    if set {
        return Some(set_place(s, alone, tag));
    }
    target_place(s, alone, id, tag)
}
