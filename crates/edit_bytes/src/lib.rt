// The set's bytes with what the cuts put in place of what they take out: how many, and these, stored into a lent output. One change is a cut and
// then nothing: what is in line at its caller is left out there by the compiler, and a call with slices and a place costs nanoseconds.
#![tactic(auto)]

ghost use Rattle.std.specs.Prelude.{◌≡◌, ◌+◌, ◌≤◌, length};
ghost use Rattle.items.specs.Meet.{level_of};
ghost use Rattle.find.specs.Places.{Ordered};
ghost use Rattle.edit_rules.specs.Cuts.{cut_put, cut_size, part, body_size, packs_size, to_pack, head_of, with_size, Small, StoredAt};
ghost use Rattle.edit_rules.specs.Cuts.{low_of, Putting, put_size, cut_bytes};

use edit_rules::{Cut, Cuts};
use find::Place;

// ---- the item

// The bytes of the item that a cut puts; none for a removal.
pub fn cut_size(c: Cut) -> usize
    requires { Small c }
    ensures { result ≡ cut_size c }
{
    if c.removal {
        return 0;
    }
    coding::widths::short_total(c.tag, c.size)
}

// The item that a cut puts, with the last bytes of the value; where it ends.
#[inline(always)]
pub fn put_cut(out: &mut [u8], at: usize, c: Cut, v: &[u8]) -> usize
    requires { Small c × (c.size ≤ length v.now) × (at + cut_size c ≤ length out.old) }
    ensures { StoredAt out.old at (cut_put c v.now) result out.new }
{
    if c.removal {
        return at;
    }
    store_coded::put_short(out, at, c.tag, &v[v.len() - c.size..])
}

// ---- what stands around it

// The bytes of s from one place to another; where they end. Often there are none.
pub fn put_part(out: &mut [u8], at: usize, s: &[u8], from: usize, to: usize) -> usize
    requires { (from ≤ to) × (to ≤ length s.now) × (at + length (part s.now from to) ≤ length out.old) }
    ensures { StoredAt out.old at (part s.now from to) result out.new }
{
    if from < to {
        return stores::copy_all(out, at, &s[from..to]);
    }
    at
}

// The bytes of the pack under its length, or of the set.
#[inline(always)]
pub fn body_size(k: Cuts) -> usize
    requires { Small k.lo × Small k.hi × (k.place.body ≤ k.lo.at) × (k.lo.at ≤ k.lo.next) × (k.lo.next ≤ k.hi.at) × (k.hi.at ≤ k.hi.next)
        × (k.hi.next ≤ k.place.last) × (k.place.last ≤ 8192) }
    ensures { result ≡ body_size k (cut_size k.lo) (cut_size k.hi) }
{
    let low = cut_size(k.lo);
    let high = cut_size(k.hi);
    (k.lo.at - k.place.body) + low + (k.hi.at - k.lo.next) + high + (k.place.last - k.hi.next)
}

// The bytes of the series under its length, with a pack of n.
pub fn packs_size(p: Place, n: usize) -> usize
    requires { Ordered 8192 p × (n ≤ 40960) }
    ensures { result ≡ packs_size p n }
{
    (p.pack - p.packs) + (coding::widths::len_width(n) + n) + (p.tail - p.last)
}

// How many bytes the entries take, with n in the pack or in the set.
pub fn edited_size(set: bool, p: Place, n: usize) -> usize
    requires { Ordered 8192 p × (n ≤ 40960) }
    ensures { result ≡ with_size (level_of set) p n }
{
    if set {
        return n;
    }
    let packs = packs_size(p, n);
    p.series + 1 + coding::widths::len_width(packs) + packs + (p.stop - p.tail)
}

// What stands before the pack, with n bytes of packs; where it ends.
pub fn put_to_pack(s: &[u8], p: Place, n: usize, out: &mut [u8]) -> usize
    requires { Ordered (length s.now) p × (n ≤ 65536) × (length (to_pack s.now p n) ≤ length out.old) }
    ensures { StoredAt out.old 0 (to_pack s.now p n) result out.new }
{
    let at = stores::copy_all(out, 0, &s[0..p.series]);
    let at = store_coded::put_series(out, at, n);
    put_part(out, at, s, p.packs, p.pack)
}

// What stands before the level's own bytes, of which there are n; where it ends.
#[inline(always)]
fn put_head(s: &[u8], set: bool, p: Place, n: usize, out: &mut [u8]) -> usize
    requires { (length s.now ≤ 8192) × Ordered (length s.now) p × (n ≤ 40960)
        × (length (head_of (level_of set) s.now p n) ≤ length out.old) }
    ensures { StoredAt out.old 0 (head_of (level_of set) s.now p n) result out.new }
{
    if set {
        return 0;
    }
    let at = put_to_pack(s, p, packs_size(p, n), out);
    store_coded::put_len(out, at, n)
}

// ---- the entries

// Of the first value and the second, the one that belongs to the lower cut; the other way round, to the higher.
fn low_of<'a>(turned: bool, v: &'a [u8], w: &'a [u8]) -> &'a [u8]
    ensures { result.now ≡ low_of turned v.now w.now }
{
    if turned {
        return w;
    }
    v
}

// The entries with what the cuts put, the lower of v and the higher of w or, turned, the other way, at the start of out; how many bytes. The
// level has n. Both values are lent at one lifetime, as low_of asks.
#[inline(always)]
pub fn put_edited<'a>(
    s: &[u8],
    set: bool,
    k: Cuts,
    n: usize,
    turned: bool,
    v: &'a [u8],
    w: &'a [u8],
    out: &mut [u8],
) -> usize
    requires { Putting (level_of set) s.now k (low_of turned v.now w.now) (low_of turned w.now v.now)
        × (put_size (level_of set) k ≤ length out.old) × (n ≡ body_size k (cut_size k.lo) (cut_size k.hi)) }
    ensures { StoredAt out.old 0
        (cut_bytes (level_of set) s.now k (low_of turned v.now w.now) (low_of turned w.now v.now))
        result out.new }
{
    let lower = low_of(turned, v, w);
    let higher = low_of(turned, w, v);
    let at = put_head(s, set, k.place, n, out);
    let at = stores::copy_all(out, at, &s[k.place.body..k.lo.at]);
    let at = put_cut(out, at, k.lo, lower);
    let at = put_part(out, at, s, k.lo.next, k.hi.at);
    let at = put_cut(out, at, k.hi, higher);
    put_part(out, at, s, k.hi.next, k.place.stop)
}
