// One or two items of a packet put or removed: whether they may be, where, and how many bytes of their values are put. Here is what one change
// and two share. Each is judged in a module of its own, so that it is compiled into its caller.
#![tactic(auto)]

ghost use Rattle.std.specs.Prelude.{◌≡◌, true, length, get_or};
ghost use Rattle.items.specs.Meet.{form_of, level_of, answered};
ghost use Rattle.items.specs.Quick.{Glanced};
ghost use Rattle.edit_rules.specs.Cuts.{no_cut, one_cut};
ghost use Rattle.edit_rules.specs.Meet.{cut_of, ValuedAs, left_by, pair_of, parted_by, lost_by, EndsAs};

pub mod one;
pub mod two;

use coding::refusals::Refusal;
use find::Place;
use items::Table;
use items::quick::Glances;

// ---- what is asked

// An item put or removed.
#[derive(Clone, Copy)]
pub struct Change {
    pub tag: u64,
    pub removal: bool,
}

// What an edit asks for, beside the value's bytes: what holds the item, the set or the target with an id, and the change. A second change is
// of the same.
#[derive(Clone, Copy)]
pub struct Asked {
    pub set: bool,
    pub id: u64,
    pub change: Change,
}

// ---- what is cut

// A span of the set's bytes, and what is put in its place: an item with the last `size` bytes of a value; nothing for a removal.
#[derive(Clone, Copy)]
pub struct Cut {
    pub at: usize,
    pub next: usize,
    pub tag: u64,
    pub removal: bool,
    pub size: usize,
}

// Two cuts of one level in order, and what stands around them.
#[derive(Clone, Copy)]
pub struct Cuts {
    pub place: Place,
    pub lo: Cut,
    pub hi: Cut,
}

// The cut of a change at its place.
pub fn cut_of(c: Change, p: Place, size: usize) -> Cut
    ensures { result ≡ cut_of c p size }
{
    Cut {
        at: p.at,
        next: p.next,
        tag: c.tag,
        removal: c.removal,
        size,
    }
}

// Nothing, where a change's cut ends. No item has its tag.
fn no_cut(at: usize) -> Cut
    ensures { result ≡ no_cut at }
{
    Cut {
        at,
        next: at,
        tag: 0,
        removal: true,
        size: 0,
    }
}

// One cut, and nothing after it.
pub fn one_cut(place: Place, cut: Cut) -> Cuts
    ensures { result ≡ one_cut place cut }
{
    Cuts {
        place,
        lo: cut,
        hi: no_cut(cut.next),
    }
}

// ---- a put

// Whether a value is told at a glance to be one that may be put as it stands. It does not know what the row of the tag leaves to the
// item table: a value that a number's zeros begin, or a tag with no row.
fn is_told(glances: &Glances, alone: bool, set: bool, tag: u64, v: &[u8]) -> bool
    ensures { result ≡ true → Glanced (level_of set) (form_of alone) tag (length v.now) (get_or v.now 0 0) }
{
    v.len() != 0 && items::quick::is_glanced(glances, set, alone, tag, v.len() as u64, v[0])
}

// How many bytes of a value are put, those of its shortest form, by the item table: 7, 13, 11, 12.
fn plain_size(alone: bool, set: bool, tag: u64, v: &[u8]) -> Result<usize, Refusal>
    ensures { ValuedAs (form_of alone) (level_of set) tag v.now result }
{
    if v.len() == 0 {
        return Err(Refusal::EmptyValue);
    }
    if !items::stands(set, alone, tag, true) {
        return Err(Refusal::MayNotStand);
    }
    let rule = items::rule_of(&Table::new(), set, tag);
    items::valued_of(rule, v)?;
    Ok(items::short_size(rule, v))
}

// The same. A value that is told at a glance is put as it stands.
fn put_size(glances: &Glances, alone: bool, set: bool, tag: u64, v: &[u8]) -> Result<usize, Refusal>
    ensures { ValuedAs (form_of alone) (level_of set) tag v.now result }
{
    if is_told(glances, alone, set, tag, v) {
        return Ok(v.len());
    }
    plain_size(alone, set, tag, v)
}

// ---- what is left of the level

// Whether a tag stands after a cut.
fn left_by(c: Cut, tag: u64, stands: bool) -> bool
    ensures { result ≡ left_by c tag stands }
{
    if c.tag == tag { !c.removal } else { stands }
}

// Whether a target that was checked, with both of 19 and 20 or neither, had them, by the cut of either; whatever, where neither is cut.
fn pair_stood(a: Cut, b: Cut) -> bool
    ensures { result ≡ pair_of a b }
{
    if a.tag == 19 || a.tag == 20 {
        return a.at < a.next;
    }
    b.at < b.next
}

// Whether the cuts leave it one of 19 and 20.
fn parted(a: Cut, b: Cut) -> bool
    ensures { result ≡ parted_by a b }
{
    let pair = pair_stood(a, b);
    let row = left_by(b, 19, left_by(a, 19, pair));
    let column = left_by(b, 20, left_by(a, 20, pair));
    row != column
}

// 14 where they leave a level of a standalone packet without the tag that it had.
fn lost_fault(alone: bool, a: Cut, b: Cut, tag: u64) -> Result<(), Refusal>
    ensures { answered result ≡ lost_by (form_of alone) a b tag }
{
    if !alone || left_by(b, tag, left_by(a, tag, true)) {
        return Ok(());
    }
    Err(Refusal::Missing)
}

// On the result of both changes 20 and 14, without a look at the level: what the packet had, and the cuts, tell it all.
fn ending_fault(alone: bool, set: bool, a: Cut, b: Cut) -> Result<(), Refusal>
    ensures { EndsAs (form_of alone) (level_of set) a b result }
{
    if set {
        return lost_fault(alone, a, b, 2);
    }
    if parted(a, b) {
        return Err(Refusal::HalfCentroid);
    }
    lost_fault(alone, a, b, 17)
}
