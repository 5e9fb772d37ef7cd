// The codings of document 01 from the bytes' side: lengths, tags and ids, numbers, the key and the checksum.
#![tactic(auto)]

ghost use Rattle.std.specs.Prelude.{◌≡◌, ◌+◌, ◌-◌, ◌*◌, ◌%◌, ◌^◌, ◌<◌, ◌≤◌, ◌&&◌, ◌||◌, length, take};
ghost use Rattle.format.specs.Coding.{bytes_number, len_of, oid_go, oid, tag_of, id_of};
ghost use Rattle.format.specs.Lists.{same};
ghost use Rattle.format.specs.Packet.{the_key, checksum};
ghost use Rattle.coding.specs.Refusals.{number};
ghost use Rattle.coding.specs.Code.{num_of, LenIf};

pub mod refusals; // refusals.rt: why something is refused, and where

use refusals::Refusal;

// A value and how many bytes it took.
#[derive(Clone, Copy, Debug, PartialEq, Eq)]
pub struct Spelled {
    pub value: u64,
    pub used: usize,
}

// A byte as a number.
pub fn wide(x: u8) -> u64
    ensures { (result ≡ x) × (result < 256) }
{
    x as u64
}

// The number that the first k bytes spell.
pub fn number_of(s: &[u8], k: usize) -> u64
    requires { (k ≤ 8) × (k ≤ length s.now) }
    ensures { result ≡ bytes_number (take k s.now) }
{
    let mut n: u64 = 0;
    for b in &s[..k] {
        n = n * 256 + wide(*b);
    }
    n
}

// The number that eight bytes spell, as two halves: the compiler reads each as one.
pub fn eight_of(s: &[u8]) -> u64
    requires { 8 ≤ length s.now }
    ensures { result ≡ bytes_number (take 8 s.now) }
{
    number_of(s, 4) * 4294967296 + number_of(&s[4..], 4)
}

// The length at the start of s.
pub fn len_of(s: &[u8]) -> Result<Spelled, Refusal>
    ensures { num_of result ≡ len_of s.now }
{
    if s.len() == 0 {
        return Err(Refusal::CutOff);
    }
    let b = wide(s[0]);
    if b < 128 {
        return Ok(Spelled { value: b, used: 1 });
    }
    let k = (b - 128) as usize;
    if k == 0 {
        return Err(Refusal::BadLength);
    }
    if 4 < k {
        return Err(Refusal::BadLength);
    }
    if s.len() - 1 < k {
        return Err(Refusal::CutOff);
    }
    let value = number_of(&s[1..], k);
    Ok(Spelled { value, used: k + 1 })
}

// The same for a length in one byte or two, with no loop over its bytes. It knows neither longer ones nor any refusal: `None` says nothing.
pub fn closer_len(s: &[u8]) -> Option<Spelled>
    ensures { LenIf result s.now }
{
    if s.len() < 2 {
        return None;
    }
    let b = wide(s[0]);
    if b < 128 {
        return Some(Spelled { value: b, used: 1 });
    }
    if b != 129 {
        return None;
    }
    let value = wide(s[1]);
    Some(Spelled { value, used: 2 })
}

// Seven bits more at the low end.
fn push7(v: u64, b: u64) -> u64
    requires { v < 2 ^ 57 }
    ensures { result ≡ v * 128 + b % 128 }
{
    (v << 7) | (b & 127)
}

// The id of two bytes, the first with its high bit: for who reads both at once.
pub fn two7(a: u64, b: u64) -> u64
    requires { (128 ≤ a) × (a < 256) × (b < 128) }
    ensures { result ≡ (a - 128) * 128 + b }
{
    push7(push7(0, a), b)
}

// The bytes of a tag or an id: k at most, the last without its high bit.
fn oid_bytes(s: &[u8], k: usize, bad: Refusal) -> Result<Spelled, Refusal>
    requires { k ≤ 9 }
    ensures { num_of result ≡ oid_go k (number bad) 0 0 s.now }
{
    let mut v: u64 = 0;
    for i in 0..k {
        if s.len() <= i {
            return Err(Refusal::CutOff);
        }
        let b = wide(s[i]);
        v = push7(v, b);
        if b < 128 {
            return Ok(Spelled {
                value: v,
                used: i + 1,
            });
        }
    }
    Err(bad)
}

// A first byte of 80 is refused.
fn oid_of(s: &[u8], k: usize, bad: Refusal) -> Result<Spelled, Refusal>
    requires { k ≤ 9 }
    ensures { num_of result ≡ oid k (number bad) s.now }
{
    let oid = oid_bytes(s, k, bad)?;
    if s[0] == 128 {
        return Err(bad);
    }
    Ok(oid)
}

// The tag at the start of s.
pub fn tag_of(s: &[u8]) -> Result<Spelled, Refusal>
    ensures { num_of result ≡ tag_of s.now }
{
    let tag = oid_of(s, 2, Refusal::BadTag)?;
    if tag.value == 0 {
        return Err(Refusal::BadTag);
    }
    Ok(tag)
}

// The id at the start of s.
pub fn id_of(s: &[u8]) -> Result<Spelled, Refusal>
    ensures { num_of result ≡ id_of s.now }
{
    oid_of(s, 9, Refusal::BadId)
}

const KEY: [u8; 16] = [6, 14, 43, 52, 2, 11, 1, 1, 14, 1, 3, 3, 6, 0, 0, 0];

// The key, to lend to what stores it.
pub fn key() -> [u8; 16]
    ensures { result ≡ the_key }
{
    KEY
}

// Both, or either: with no way around the second, so that a loop of such has none.
pub fn both(a: bool, b: bool) -> bool
    ensures { result ≡ (a && b) }
{
    if a { b } else { false }
}

pub fn either(a: bool, b: bool) -> bool
    ensures { result ≡ (a || b) }
{
    if a { true } else { b }
}

// Whether the key opens s. No byte that differs ends the loop, so that the compiler compares all at once.
pub fn has_key(s: &[u8]) -> bool
    ensures { result ≡ same (take 16 s.now) the_key }
{
    if s.len() < 16 {
        return false;
    }
    let mut alike = true;
    for i in 0..16 {
        alike = both(alike, s[i] == KEY[i]);
    }
    alike
}

// The checksum of the first n bytes: those at even places count 256 times. One sum cut to 16 bits, with no branch by the place: so the compiler
// takes many bytes at once.
pub fn sum_of(s: &[u8], n: usize) -> u64
    requires { n ≤ length s.now }
    ensures { result ≡ checksum (take n s.now) }
{
    let mut t: u16 = 0;
    for i in 0..n {
        let weight = 256 - 255 * ((i % 2) as u16);
        t = t.wrapping_add(u16::from(s[i]) * weight);
    }
    u64::from(t)
}

pub mod widths; // widths.rt: how many bytes what is coded takes
pub mod alike; // alike.rt: bytes laid out as others
