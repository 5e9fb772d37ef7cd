// Storing into a lent output. `sets l i vs` is l with vs stored from index i on.
#![tactic(auto)]

ghost use Rattle.std.specs.Prelude.{◌≡◌, [], ◌∷◌, ◌+◌, ◌≤◌, length, take, drop};
ghost use Rattle.std.proofs.lemmas.List.Edits.{sets};
ghost use Rattle.format.specs.Coding.{fixed};

use std::simd::Simd;

// How many bytes were read, and how many were stored for them.
#[derive(Clone, Copy, Debug, PartialEq, Eq)]
pub struct Passed {
    pub used: usize,
    pub wrote: usize,
}

// v in k bytes, high byte first; where they end.
#[tactic(auto, using(crate::proofs::Stores::number_step, crate::proofs::Stores::number_done))]
pub fn put_number(out: &mut [u8], at: usize, v: u64, k: usize) -> usize
    requires { at + k ≤ length out.old }
    ensures { (result ≡ at + k) × (out.new ≡ sets out.old at (fixed k v)) }
{
    let mut n = v;
    for i in (0..k).rev() {
        out[at + i] = (n % 256) as u8;
        n /= 256;
    }
    at + k
}

// The bytes of s, one by one; where they end.
#[tactic(auto, using(crate::proofs::Stores::sets_more))]
fn copy_long(out: &mut [u8], at: usize, s: &[u8]) -> usize
    requires { at + length s.now ≤ length out.old }
    ensures { (result ≡ at + length s.now) × (out.new ≡ sets out.old at s.now) }
{
    for i in 0..s.len() {
        out[at + i] = s[i];
    }
    at + s.len()
}

// N bytes of s from f on, as one number: all are read before one is stored.
#[tactic(auto, using(crate::proofs::Copies::vector_stored))]
fn move_bytes<const N: usize>(out: &mut [u8], at: usize, s: &[u8], f: usize)
    requires { (f + N ≤ length s.now) × (at + length s.now ≤ length out.old) }
    ensures { out.new ≡ sets out.old (at + f) (take N (drop f s.now)) }
{
    Simd::<u8, N>::from_slice(&s[f..]).copy_to_slice(&mut out[at + f..]);
}

// The bytes of s, which are N to twice as many; where they end. They go as the last N and the first, which may overlap.
#[tactic(auto, using(crate::proofs::Copies::copy_ends))]
fn move_ends<const N: usize>(out: &mut [u8], at: usize, s: &[u8]) -> usize
    requires { (N ≤ length s.now) × (length s.now ≤ N + N) × (at + length s.now ≤ length out.old) }
    ensures { (result ≡ at + length s.now) × (out.new ≡ sets out.old at s.now) }
{
    let n = s.len();
    move_bytes::<N>(out, at, s, n - N);
    move_bytes::<N>(out, at, s, 0);
    at + n
}

// The bytes of s; where they end. From 8 to 32 go without a loop. For bytes of any length. Always a call, so that `copy` may stand in line.
#[inline(never)]
pub fn copy_all(out: &mut [u8], at: usize, s: &[u8]) -> usize
    requires { at + length s.now ≤ length out.old }
    ensures { (result ≡ at + length s.now) × (out.new ≡ sets out.old at s.now) }
{
    match s.len() {
        8..=16 => move_ends::<8>(out, at, s),
        17..=32 => move_ends::<16>(out, at, s),
        _ => copy_long(out, at, s),
    }
}

// The same for a value. Most have few bytes: they are stored where it is called. A longer one is lent anew, so that its place and length go to
// memory then alone.
pub fn copy(out: &mut [u8], at: usize, s: &[u8]) -> usize
    requires { at + length s.now ≤ length out.old }
    ensures { (result ≡ at + length s.now) × (out.new ≡ sets out.old at s.now) }
{
    match s.len() {
        0 => at,
        1 => {
            out[at] = s[0];
            at + 1
        }
        2..=3 => move_ends::<2>(out, at, s),
        4..=7 => move_ends::<4>(out, at, s),
        8..=16 => move_ends::<8>(out, at, s),
        _ => copy_all(out, at, &s[0..]),
    }
}

// The n bytes at `at` moved on by `by`; the two places may overlap.
#[tactic(auto, using(crate::proofs::Copies::moved_on))]
pub fn shift(out: &mut [u8], at: usize, n: usize, by: usize)
    requires { at + by + n ≤ length out.old }
    ensures { out.new ≡ sets out.old (at + by) (take n (drop at out.old)) }
{
    out.copy_within(at..at + n, at + by);
}

// Four numbers, a row; where they end.
pub fn put_row(out: &mut [u64], at: usize, a: u64, b: u64, c: u64, d: u64) -> usize
    requires { at + 4 ≤ length out.old }
    ensures { (result ≡ at + 4) × (out.new ≡ sets out.old at (a ∷ b ∷ c ∷ d ∷ [])) }
{
    out[at] = a;
    out[at + 1] = b;
    out[at + 2] = c;
    out[at + 3] = d;
    at + 4
}
