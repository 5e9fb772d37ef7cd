// Edit: a packet is checked and the edit judged, then the packet with its change, or with its two, is written.
#![tactic(auto)]

ghost use Rattle.std.specs.Prelude.{◌≡◌, ◌≤◌, length};
ghost use Rattle.format.specs.Valid.{SheetValid};
ghost use Rattle.items.specs.Meet.{form_of, level_of};
ghost use Rattle.find.specs.Places.{SetOf};
ghost use Rattle.edit_rules.specs.Meet.{changes_of, asked_holder, sheet_of};
ghost use Rattle.edit_rules.specs.Cuts.{low_of, Cutting, Putting};
ghost use Rattle.answers.specs.Meet.{answer};
ghost use Rattle.answers.specs.Calls.{Edits};
ghost use Rattle.edit.specs.Meet.{Entered, CutPacked, SetEdits};

pub mod two;

use coding::refusals::{Fault, Refusal, placed};
use edit_rules::{Asked, Cuts};
use items::quick::Glances;

// How many bytes a packet may have.
const LIMIT: usize = 8192;

// The packet with what the cuts put, the lower of v and the higher of w or, turned, the other way: 1, 16. How many bytes it has. In line at both
// calls, of one change and of two: the compiler then leaves out what one has not, and a call with slices and a place costs nanoseconds.
#[inline(always)]
fn edit_at<'a>(
    s: &[u8],
    alone: bool,
    set: bool,
    k: Cuts,
    turned: bool,
    v: &'a [u8],
    w: &'a [u8],
    out: &mut [u8],
) -> Result<usize, Fault>
    requires { Putting (level_of set) s.now k (low_of turned v.now w.now) (low_of turned w.now v.now)
        × Entered (level_of set) s.now k (low_of turned v.now w.now) (low_of turned w.now v.now) }
    ensures { CutPacked (form_of alone) (level_of set) s.now k (low_of turned v.now w.now)
        (low_of turned w.now v.now) out.old (answer result) out.new }
{
    let body = edit_bytes::body_size(k);
    let n = edit_bytes::edited_size(set, k.place, body);
    let total = frames::frame_size(alone, n);
    if LIMIT < total {
        return Err(Refusal::OverLimit.at(0));
    }
    if out.len() < total {
        return Err(Refusal::RoomTooShort.at(total));
    }
    let from = frames::open(out, alone, n);
    let size = edit_bytes::put_edited(s, set, k, body, turned, v, w, &mut out[from..]);
    frames::close(out, alone, from + size);
    Ok(total)
}

// The same for cuts that put any number of bytes: with more than a packet may have, its packet has too many.
#[inline(always)]
fn edit_cuts<'a>(
    s: &[u8],
    alone: bool,
    set: bool,
    k: Cuts,
    turned: bool,
    v: &'a [u8],
    w: &'a [u8],
    out: &mut [u8],
) -> Result<usize, Fault>
    requires { (length s.now ≤ 8192) × Cutting (level_of set) s.now k (low_of turned v.now w.now) (low_of turned w.now v.now)
        × Entered (level_of set) s.now k (low_of turned v.now w.now) (low_of turned w.now v.now) }
    ensures { CutPacked (form_of alone) (level_of set) s.now k (low_of turned v.now w.now)
        (low_of turned w.now v.now) out.old (answer result) out.new }
{
    if LIMIT < k.lo.size || LIMIT < k.hi.size {
        return Err(Refusal::OverLimit.at(0));
    }
    edit_at(s, alone, set, k, turned, v, w, out)
}

// An edit of the set of a packet that was checked: the rules, then the packet. Apart, so that the compiler takes neither for a rare way.
fn edit_set(
    glances: &Glances,
    s: &[u8],
    alone: bool,
    a: Asked,
    v: &[u8],
    out: &mut [u8],
) -> Result<usize, Fault>
    requires { SetOf (form_of alone) s.now × SheetValid (sheet_of (form_of alone) s.now) }
    ensures { SetEdits (form_of alone) (asked_holder a) (changes_of a v.now) s.now out.old (answer result) out.new }
{
    let judged = placed(edit_rules::one::judge(glances, s, alone, a, v), 0)?;
    let cut = edit_rules::cut_of(a.change, judged.place, judged.size);
    let cuts = edit_rules::one_cut(judged.place, cut);
    edit_cuts(s, alone, a.set, cuts, false, v, v, out)
}

// A packet with one item put or removed, of the set or of the target with an id; how many bytes it has. A value that is not put is not read.
pub fn edit(packet: &[u8], alone: bool, a: Asked, v: &[u8], out: &mut [u8]) -> Result<usize, Fault>
    ensures { Edits (form_of alone) (asked_holder a) (changes_of a v.now) packet.now
        out.old (answer result) out.new }
{
    let glances = Glances::new();
    let checked = check_packet::check(&glances, packet, alone)?;
    edit_set(&glances, &packet[checked.from..], alone, a, v, out)
}
