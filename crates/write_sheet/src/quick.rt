// The quick way over a series and a pack that were checked. It does not know a tag or a length of more than one byte, a pack's head that is not
// short, nor a value of more than one byte that begins with 0, which the table may have shortened: what stops it is left to the walks. A pack has
// neither a checksum nor a series.
ghost use Rattle.std.specs.Prelude.{◌≤◌, length, IfSome};
ghost use Rattle.format.specs.Table.{Form, pack};
ghost use Rattle.write_sheet.specs.Meet.{LevelAsked, SeriesAsked};
ghost use Rattle.write_sheet.specs.Quick.{ItemsPassed, PacksPassed, SmallItem};

use stores::Passed;

// How many bytes the value of an item at p has, where it is one that is known here.
fn small_size(s: &[u8], p: usize) -> Option<usize>
    requires { (p ≤ length s.now) × (length s.now ≤ 8192) }
    ensures { IfSome result (λ n. SmallItem s.now p n) }
{
    if s.len() < p + 3 {
        return None;
    }
    let tag = coding::wide(s[p]);
    if 127 < tag {
        return None;
    }
    let n = coding::wide(s[p + 1]);
    if n == 0 || 127 < n {
        return None;
    }
    // one byte is shortest whatever it is
    if 1 < n && s[p + 2] == 0 {
        return None;
    }
    Some(n as usize)
}

// The records of such items, one after another, from the start.
#[tactic(auto, using(crate::proofs::Smalls::small_turns))]
pub fn small_items(s: &[u8], out: &mut [u8]) -> Passed
    requires { (f : Form) × LevelAsked pack s.now (length out.old) f }
    ensures { ItemsPassed s.now out.old out.new result.used result.wrote }
{
    let mut p: usize = 0;
    let mut k: usize = 0;
    while let Some(n) = small_size(s, p) {
        let first = p + 2;
        let next = first + n;
        let tag = coding::wide(s[p]);
        k = super::put_item(out, k, false, tag, &s[first..next]);
        p = next;
    }
    Passed { used: p, wrote: k }
}

// The packs of such items alone whose head is short, one after another. The pack that stops it is left to the pack walk, which stores it anew:
// so nothing here is lent to what stands out of line.
#[tactic(auto, using(crate::proofs::Begun::quick_turns))]
pub fn packs(s: &[u8], out: &mut [u8]) -> Passed
    requires { (f : Form) × SeriesAsked s.now (length out.old) f }
    ensures { PacksPassed s.now out.old out.new result.used result.wrote }
{
    let mut p: usize = 0;
    let mut k: usize = 0;
    while let Some(head) = heads::short_pack_head(&s[p..]) {
        let from = p + head.width + head.used;
        let next = p + head.width + head.size;
        let m = super::put_target(out, k, head.key);
        let q = small_items(&s[from..next], &mut out[m..]);
        if q.used < next - from {
            return Passed { used: p, wrote: k };
        }
        k = m + q.wrote;
        p = next;
    }
    Passed { used: p, wrote: k }
}
