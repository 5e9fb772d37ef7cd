// Storing what is coded: a length, a tag or an id, an item under its shortest length, and what stands in front of packs and of items.
#![tactic(auto)]

ghost use Rattle.std.specs.Prelude.{◌≡◌, ◌+◌, ◌%◌, ◌^◌, ◌≤◌, ◌<◌, length};
ghost use Rattle.std.proofs.lemmas.List.Edits.{sets};
ghost use Rattle.format.specs.Coding.{len_width, len_bytes, oid_bytes};
ghost use Rattle.store_coded.specs.Fronts.{short_item, series_front, pack_front};

// The shortest length n; where it ends.
#[tactic(auto, using(crate::proofs::Codings::lengths))]
pub fn put_len(out: &mut [u8], at: usize, n: usize) -> usize
    requires { (n < 2 ^ 32) × (at + len_width n ≤ length out.old) }
    ensures { (result ≡ at + len_width n) × (out.new ≡ sets out.old at (len_bytes (len_width n) n)) }
{
    if n < 128 {
        out[at] = n as u8;
        return at + 1;
    }
    let k = coding::widths::len_width(n) - 1;
    out[at] = (128 + k) as u8;
    stores::put_number(out, at + 1, n as u64, k)
}

// The seven low bits, as the last byte has them.
pub fn low7(n: u64) -> u8
    ensures { result ≡ n % 128 }
{
    (n & 127) as u8
}

// The same with the high bit, as every byte before the last has them.
pub fn more7(n: u64) -> u8
    ensures { result ≡ n % 128 + 128 }
{
    low7(n) | 128
}

// The tag or id n, from its last byte to its first; where it ends. Most have one byte.
#[tactic(auto, using(crate::proofs::Codings::oids))]
pub fn put_oid(out: &mut [u8], at: usize, n: u64) -> usize
    requires { (n < 2 ^ 63) × (at + length (oid_bytes n) ≤ length out.old) }
    ensures { (result ≡ at + length (oid_bytes n)) × (out.new ≡ sets out.old at (oid_bytes n)) }
{
    if n < 128 {
        out[at] = n as u8;
        return at + 1;
    }
    let k = coding::widths::oid_width(n);
    let last = k - 1;
    out[at + last] = low7(n);
    let mut m = coding::widths::above7(n);
    for i in (0..last).rev() {
        out[at + i] = more7(m);
        m = coding::widths::above7(m);
    }
    at + k
}

// An item under its shortest length; where it ends.
#[tactic(auto, using(crate::proofs::Codings::items))]
pub fn put_short(out: &mut [u8], at: usize, tag: u64, v: &[u8]) -> usize
    requires { (tag ≤ 16383) × (length v.now ≤ 65536) × (at + length (short_item tag v.now) ≤ length out.old) }
    ensures { (result ≡ at + length (short_item tag v.now))
        × (out.new ≡ sets out.old at (short_item tag v.now)) }
{
    let a = put_oid(out, at, tag);
    let b = put_len(out, a, v.len());
    stores::copy(out, b, v)
}

// What stands in front of a series' packs, n bytes; where it ends.
#[tactic(auto, using(crate::proofs::Fronts::series))]
pub fn put_series(out: &mut [u8], at: usize, n: usize) -> usize
    requires { (n ≤ 65536) × (at + length (series_front n) ≤ length out.old) }
    ensures { (result ≡ at + length (series_front n)) × (out.new ≡ sets out.old at (series_front n)) }
{
    out[at] = 101;
    put_len(out, at + 1, n)
}

// What stands in front of a pack's items, where its id and its items are n bytes; where it ends. Most packs have one byte for n, and one or two for
// the id.
#[tactic(auto, using(crate::proofs::Fronts::packs))]
pub fn put_pack(out: &mut [u8], at: usize, n: usize, id: u64) -> usize
    requires { (n ≤ 65536) × (id < 2 ^ 63) × (at + length (pack_front n id) ≤ length out.old) }
    ensures { (result ≡ at + length (pack_front n id)) × (out.new ≡ sets out.old at (pack_front n id)) }
{
    if n < 128 && id < 16384 {
        out[at] = n as u8;
        let a = at + 1;
        if id < 128 {
            out[a] = id as u8;
            return a + 1;
        }
        out[a] = more7(coding::widths::above7(id));
        out[a + 1] = low7(id);
        return a + 2;
    }
    let a = put_len(out, at, n);
    put_oid(out, a, id)
}
