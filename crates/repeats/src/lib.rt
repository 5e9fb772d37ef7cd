// Whether a tag or an id stood before: a look back over the heads, made only where one may be found.
#![tactic(auto)]

ghost use Rattle.std.specs.Prelude.{◌≡◌, ℕ, ◌≤◌, List, length, drop};
ghost use Rattle.format.specs.Lists.{has};
ghost use Rattle.heads.specs.Meet.{peek_by, Heads, Past, Clear};

use heads::Look;

// Whether key heads something that begins in the first p bytes.
#[inline(always)]
fn stood_before(s: &[u8], p: usize, key: u64, look: Look) -> bool
    requires { p ≤ length s.now }
    ensures { (ks : List ℕ) → Heads (peek_by look) s.now p ks → result ≡ has key ks }
{
    let mut q: usize = 0;
    while q < p {
        let Some(next) = look.next(&s[q..]) else {
            return false;
        };
        if next.key == key {
            return true;
        }
        q += next.used;
    }
    false
}

// The same, each look by a loop of its own, in which the compiler knows what is next. A call, as few keys are looked back for.
#[inline(never)]
fn seen_before(s: &[u8], p: usize, key: u64, look: Look) -> bool
    requires { p ≤ length s.now }
    ensures { (ks : List ℕ) → Heads (peek_by look) s.now p ks → result ≡ has key ks }
{
    match look {
        Look::Packs => stood_before(s, p, key, Look::Packs),
        Look::Items { set } => stood_before(s, p, key, Look::Items { set }),
        Look::Targets => stood_before(s, p, key, Look::Targets),
        Look::Records { set: true } => stood_before(s, p, key, Look::Records { set: true }),
        Look::Records { set: false } => stood_before(s, p, key, Look::Records { set: false }),
    }
}

// The same of the key at p, where no key before p is above top or below low, and none repeats before clear.
pub fn is_seen(s: &[u8], p: usize, clear: usize, top: u64, low: u64, key: u64, look: Look) -> bool
    requires { (p ≤ length s.now) × Clear (peek_by look) s.now clear × (key ≡ (peek_by look (drop p s.now)).val) }
    ensures { (seen : List ℕ) → Past (peek_by look) s.now p top low seen → result ≡ has key seen }
{
    if top < key {
        return false;
    }
    if key < low {
        return false;
    }
    if p < clear {
        return false;
    }
    seen_before(s, p, key, look)
}

pub mod notes; // notes.rt: keys that are noted
pub mod clear; // clear.rt: how far no key repeats
mod blocks; // blocks.rt: ids told apart in blocks of 64
