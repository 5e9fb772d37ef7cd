// Ids told apart in blocks of 64, where their bits are not enough: what stands before a block is gone over once for all of it. Of what stands after
// the first that may repeat it is not known.
ghost use Rattle.std.specs.Prelude.{◌≡◌, ◌≤◌, true, false, length};
ghost use Rattle.format.specs.Lists.{has};
ghost use Rattle.heads.specs.Meet.{peek_by, Clear};
ghost use Rattle.repeats.specs.Blocks.{Gathered, Missed};

use super::clear::is_other;
use heads::Look;

// Whether the block has the key. One that is found does not end the loop, so that the compiler compares many at once.
fn is_among(block: &[u64; 64], key: u64) -> bool
    requires { length block.now ≡ 64 }
    ensures { result ≡ has key block.now }
{
    let mut found = false;
    for k in block {
        found = coding::either(found, *k == key);
    }
    found
}

// Whether a key before p may be one of the block's.
fn may_be_before(s: &[u8], p: usize, block: &[u64; 64], look: Look) -> bool
    requires { (p ≤ length s.now) × (length block.now ≡ 64) }
    ensures { result ≡ false → Missed (peek_by look) s.now p block.now }
{
    let mut q: usize = 0;
    while q < p {
        let Some(next) = look.next(&s[q..]) else {
            return true;
        };
        if is_among(block, next.key) {
            return true;
        }
        q += next.used;
    }
    false
}

// The keys from `from` on, up to 64, as long as they differ; where the first stands that is not gathered.
fn gather(s: &[u8], from: usize, block: &mut [u64; 64], look: Look) -> usize
    requires { (from ≤ length s.now) × (length block.old ≡ 64) }
    ensures { Gathered (peek_by look) s.now from block.new result }
{
    let mut q = from;
    for i in 0..64 {
        if is_other(s, q, look) {
            return q;
        }
        let Some(next) = look.next(&s[q..]) else {
            return q;
        };
        let key = next.key;
        if is_among(block, key) {
            return q;
        }
        block[i] = key;
        q += next.used;
    }
    q
}

// No id that begins before there stood before it.
pub fn clear_to(s: &[u8], look: Look, block: &mut [u64; 64]) -> usize
    ensures { Clear (peek_by look) s.now result }
{
    let mut from: usize = 0;
    loop {
        // no id is as large, so what is not filled is found for none
        *block = [u64::MAX; 64];
        let to = gather(s, from, block, look);
        if to == from {
            return from;
        }
        if may_be_before(s, from, block, look) {
            return from;
        }
        from = to;
    }
}
