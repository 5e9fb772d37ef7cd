// How far no key of a level repeats, told by four passes: so that keys that neither rise nor fall are not looked back for one by one. Of what stands
// further on it is not known, and two ids with one bit end it too.
ghost use Rattle.std.specs.Prelude.{◌≡◌, ◌≤◌, false, length};
ghost use Rattle.heads.specs.Meet.{peek_by, Clear};
ghost use Rattle.repeats.specs.Parts.{quarter, noted_part, is_other, NotedPart, ClearIn};

use heads::{Look, records};

// A bit for each key of a quarter, modulo 4,096: every tag has its own. A quarter at a time, as the bits stand on the stack.
fn is_noted_part(bits: &[u64], key: u64) -> bool
    requires { length bits.now ≡ 64 }
    ensures { result ≡ noted_part bits.now key }
{
    super::notes::is_noted(bits, key % 4096)
}

fn note_part(bits: &mut [u64], key: u64, part: u64)
    requires { length bits.old ≡ 64 }
    ensures { NotedPart bits.old bits.new key part }
{
    if key / 4096 % 4 != part {
        return;
    }
    super::notes::note(bits, key % 4096);
}

// Whether a key of the part may have stood before, where what stood there is noted: its bit is set.
fn may_stand(key: u64, part: u64, bits: &[u64]) -> bool
    requires { length bits.now ≡ 64 }
    ensures { result ≡ false → quarter key ≡ part → noted_part bits.now key ≡ false }
{
    if key / 4096 % 4 != part {
        return false;
    }
    is_noted_part(bits, key)
}

// In a look over targets, whether no `TG` stands at q of a sheet; over a target's items, whether no `TI` does: a pass may stop there. In other looks, false.
pub fn is_other(s: &[u8], q: usize, look: Look) -> bool
    ensures { result ≡ is_other look s.now q }
{
    match look {
        Look::Targets => !records::is_mark(s, q, records::TG),
        Look::Records { set: false } => !records::is_mark(s, q, records::TI),
        _ => false,
    }
}

// How far no key of a quarter repeats.
#[inline(always)]
fn part_clear(s: &[u8], part: u64, look: Look, bits: &mut [u64; 64]) -> usize
    ensures { ClearIn part (peek_by look) s.now result }
{
    *bits = [0; 64];
    let mut q: usize = 0;
    while q < s.len() {
        if is_other(s, q, look) {
            return q;
        }
        let Some(next) = look.next(&s[q..]) else {
            return q;
        };
        if may_stand(next.key, part, bits) {
            return q;
        }
        note_part(bits, next.key, part);
        q += next.used;
    }
    q
}

// No thing that begins before there has a key that stood before it: four passes.
#[inline(always)]
fn passes(s: &[u8], look: Look, bits: &mut [u64; 64]) -> usize
    ensures { Clear (peek_by look) s.now result }
{
    let mut r = s.len();
    for part in 0..4 {
        r = r.min(part_clear(s, part, look, bits));
    }
    // ids share bits, so where the passes stopped at one it may still be new
    let ids = matches!(look, Look::Packs | Look::Targets);
    if ids && r < s.len() && !is_other(s, r, look) {
        return super::blocks::clear_to(s, look, bits);
    }
    r
}

// The same, each look by passes of its own, in which the compiler knows what is next. A call, so that only the tests of `after` stand in the walks.
#[inline(never)]
fn clear_to(s: &[u8], look: Look, bits: &mut [u64; 64]) -> usize
    ensures { Clear (peek_by look) s.now result }
{
    match look {
        Look::Packs => passes(s, Look::Packs, bits),
        Look::Items { set } => passes(s, Look::Items { set }, bits),
        Look::Targets => passes(s, Look::Targets, bits),
        Look::Records { set: true } => passes(s, Look::Records { set: true }, bits),
        Look::Records { set: false } => passes(s, Look::Records { set: false }, bits),
    }
}

// As far as it is known after the key at p: the passes are made once, after the second look back over more than a few heads; 1 says that there was one.
pub fn after(
    s: &[u8],
    p: usize,
    clear: usize,
    top: u64,
    low: u64,
    key: u64,
    look: Look,
    bits: &mut [u64; 64],
) -> usize
    requires { Clear (peek_by look) s.now clear }
    ensures { Clear (peek_by look) s.now result }
{
    if top < key {
        return clear;
    }
    if key < low {
        return clear;
    }
    if p < 512 {
        return clear;
    }
    if clear == 0 {
        return 1;
    }
    if 1 < clear {
        return clear;
    }
    clear_to(s, look, bits)
}

#[cfg(test)]
mod tests {
    use super::*;

    // a target and its item, looked over from each mark and from the end
    #[test]
    fn other_levels(rt: HostRuntime) {
        let s = *b"TG\0\0\0\0\0\0\0\x01TI\0\x05\0\x01\x07";
        let items = Look::Records { set: false };
        for (q, look) in [
            (10, Look::Targets),
            (17, Look::Targets),
            (0, items),
            (17, items),
        ] {
            assert!(rt; is_other(&s, q, look), "{look:?} at {q}");
        }
        for (q, look) in [
            (0, Look::Targets),
            (10, items),
            (0, Look::Records { set: true }),
            (0, Look::Packs),
            (0, Look::Items { set: false }),
        ] {
            assert!(rt; !is_other(&s, q, look), "{look:?} at {q}");
        }
    }
}
