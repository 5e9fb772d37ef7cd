// The entries of a packet's set in normal form, written into a lent output from a sheet that was checked, record by record.
#![tactic(auto)]

ghost use Rattle.std.specs.Prelude.{◌≡◌, ℕ, ◌+◌, ◌-◌, ◌≤◌, ◌<◌, true, false, List, [], ◌∷◌, length, take, drop};
ghost use Rattle.std.proofs.lemmas.List.Edits.{sets};
ghost use Rattle.format.specs.Coding.{bytes_number, len_width};
ghost use Rattle.format.specs.Table.{Form};
ghost use Rattle.stores.specs.Puts.{Puts};
ghost use Rattle.write_packet.specs.Writing.{item_coded, RecordsAsked, RecordsLeft, Small, RestAsked, RestLeft, ValsLeft, TargetsAsked, TargetsLeft};

use heads::records;
use stores::Passed;

// The number of two bytes at p, as a record's tag and its value's length are.
#[tactic(auto, using(coding::proofs::Rooms::tail_part))]
fn two_at(s: &[u8], p: usize) -> u64
    requires { p + 2 ≤ length s.now }
    ensures { result ≡ bytes_number (take 2 (drop p s.now)) }
{
    coding::number_of(&s[p..], 2)
}

// Whether the tag and the value's length of the record at p have a byte each, below 128, as most have. In one number the four bytes are read
// and tested at once.
#[tactic(auto, using(crate::proofs::Smalls::told_small))]
fn is_small(s: &[u8], p: usize) -> bool
    requires { p + 6 ≤ length s.now }
    ensures { result ≡ true → Small s.now p }
{
    let a = coding::wide(s[p + 2]);
    let b = coding::wide(s[p + 3]);
    let c = coding::wide(s[p + 4]);
    let d = coding::wide(s[p + 5]);
    (a + 256 * b + 65536 * c + 16777216 * d) & 0x80ff80ff == 0
}

// The item of such a record; where it ends.
#[tactic(auto, using(crate::proofs::Smalls::small_put))]
fn put_small(out: &mut [u8], at: usize, tag: u8, v: &[u8]) -> usize
    requires { (tag < 128) × (length v.now < 128) × (at + length (item_coded tag v.now) ≤ length out.old) }
    ensures { Puts out.old at (item_coded tag v.now) result out.new }
{
    out[at] = tag;
    let a = at + 1;
    out[a] = v.len() as u8;
    stores::copy(out, a + 1, v)
}

// The item of such a record whose value has one byte, as most have: where it ends is told without waiting for the length.
#[tactic(auto, using(crate::proofs::Smalls::small_put))]
fn put_one(out: &mut [u8], at: usize, tag: u8, v: u8) -> usize
    requires { (tag < 128) × (at + length (item_coded tag (v ∷ [])) ≤ length out.old) }
    ensures { Puts out.old at (item_coded tag (v ∷ [])) result out.new }
{
    out[at] = tag;
    out[at + 1] = 1;
    out[at + 2] = v;
    at + 3
}

// The records of a target from a place on, where at bytes are written for those before it.
#[tactic(auto, using(crate::proofs::Turns::rest_turns))]
fn rest_vals(s: &[u8], from: usize, at: usize, out: &mut [u8]) -> Passed
    requires { (f : Form) × (o : List ℕ) × RestAsked s.now out.old from at f o }
    ensures { RestLeft s.now out.old from at result.used result.wrote out.new }
{
    let mut p = from;
    let mut k = at;
    while records::is_mark(s, p, records::TI) {
        let tag = two_at(s, p + 2);
        let n = two_at(s, p + 4);
        let next = p + 6 + n as usize;
        k = store_coded::put_short(out, k, tag, &s[p + 6..next]);
        p = next;
    }
    Passed { used: p, wrote: k }
}

// The records of a target, the small ones one after another: what stops them is left to the rest, which is kept out of the loop over the targets.
#[tactic(auto, using(crate::proofs::Turns::val_turns))]
fn put_vals(s: &[u8], out: &mut [u8]) -> Passed
    requires { (f : Form) × RecordsAsked 0 false f s.now (length out.old) }
    ensures { ValsLeft s.now out.old result.used result.wrote out.new }
{
    let mut p: usize = 0;
    let mut k: usize = 0;
    while records::is_mark(s, p, records::TI) {
        if !is_small(s, p) {
            return rest_vals(s, p, k, out);
        }
        let n = coding::wide(s[p + 5]);
        if n == 1 {
            k = put_one(out, k, s[p + 3], s[p + 6]);
            p = p + 7;
        } else {
            let next = p + 6 + n as usize;
            k = put_small(out, k, s[p + 3], &s[p + 6..next]);
            p = next;
        }
    }
    Passed { used: p, wrote: k }
}

// The records of the set, whose series has `inner` bytes of packs; how many bytes they write.
#[tactic(auto, using(crate::proofs::Turns::part_turns))]
pub fn item_packet(s: &[u8], inner: usize, out: &mut [u8]) -> usize
    requires { (f : Form) × RecordsAsked inner true f s.now (length out.old) }
    ensures { RecordsLeft inner s.now out.old result out.new }
{
    let mut p: usize = 0;
    let mut k: usize = 0;
    while p < s.len() {
        if records::is_mark(s, p, records::TS) {
            let m = store_coded::put_series(out, k, inner);
            let d = target_packet(&s[p + 2..], &mut out[m..]);
            p = p + 2 + d.used;
            k = m + d.wrote;
        } else {
            let tag = two_at(s, p + 2);
            let n = two_at(s, p + 4);
            let next = p + 6 + n as usize;
            k = store_coded::put_short(out, k, tag, &s[p + 6..next]);
            p = next;
        }
    }
    k
}

// The n bytes at `at` moved on, where the length of a body has more than the one byte that was left for it.
#[tactic(auto, using(crate::proofs::TargetTurns::moves))]
fn move_on(out: &mut [u8], at: usize, n: usize, body: usize)
    requires { at + (len_width body - 1) + n ≤ length out.old }
    ensures { out.new ≡ sets out.old (at + (len_width body - 1)) (take n (drop at out.old)) }
{
    if 127 < body {
        stores::shift(out, at, n, coding::widths::len_width(body) - 1);
    }
}

// The targets of the series.
#[tactic(auto, using(crate::proofs::TargetTurns::target_turns))]
pub fn target_packet(s: &[u8], out: &mut [u8]) -> Passed
    requires { (f : Form) × TargetsAsked f s.now (length out.old) }
    ensures { TargetsLeft s.now out.old result.used result.wrote out.new }
{
    let mut p: usize = 0;
    let mut k: usize = 0;
    while records::is_mark(s, p, records::TG) {
        let id = coding::number_of(&s[p + 2..], 8);
        let from = p + 10;
        let w = coding::widths::oid_width(id);
        // The items go behind the head that most packs have, a length of one byte and the id; for a longer length they are moved on.
        let at = k + 1 + w;
        let d = put_vals(&s[from..], &mut out[at..]);
        let next = from + d.used;
        let body = w + d.wrote;
        move_on(out, at, d.wrote, body);
        let m = store_coded::put_pack(out, k, body, id);
        k = m + d.wrote;
        p = next;
    }
    Passed { used: p, wrote: k }
}
