// Two changes: each in its turn 19, 18, then for a put 7, 13, 11, 12; then 20 and 14 on the result of both. They are of one target: a second
// change to the set is 19 in its turn.
ghost use Rattle.std.specs.Prelude.{◌≡◌};
ghost use Rattle.coding.specs.Refusals.{number};
ghost use Rattle.format.specs.Valid.{SheetValid};
ghost use Rattle.format.specs.Table.{pack};
ghost use Rattle.items.specs.Meet.{form_of};
ghost use Rattle.find.specs.Places.{SetOf};
ghost use Rattle.edit_rules.specs.Meet.{sheet_of, TurnedAs, in_order, RestAs, TwoAs, SetStops};

use super::{Change, Cut, Cuts, cut_of, ending_fault, plain_size, put_size};
use coding::refusals::Refusal;
use find::Place;
use items::quick::Glances;

// The cuts of an edit, `turned` where the second change is the lower.
#[derive(Clone, Copy)]
pub struct Judged {
    pub cuts: Cuts,
    pub turned: bool,
}

// ---- of the set

// Why two changes to the set are refused, whatever the second is: the first in its turn, then 19. They are never let through, so no glance is taken.
pub fn set_fault(s: &[u8], alone: bool, c: Change, v: &[u8]) -> Refusal
    requires { SetOf (form_of alone) s.now }
    ensures { SetStops (form_of alone) c v.now s.now (number result) }
{
    if !items::nameable_of(true, c.tag) {
        return Refusal::NotEditable;
    }
    if c.removal {
        let a = find::item_spot(s, true, c.tag);
        if a.at < a.next {
            return Refusal::NotEditable;
        }
        return Refusal::Absent;
    }
    match plain_size(alone, true, c.tag, v) {
        Ok(_) => Refusal::NotEditable,
        Err(refusal) => refusal,
    }
}

// ---- of a target

// A change to a target, in which its item stands or not: how many bytes are put; or 18 for a removal, for a put 7, 13, 11, 12.
fn turn_of(
    glances: &Glances,
    alone: bool,
    c: Change,
    stands: bool,
    v: &[u8],
) -> Result<usize, Refusal>
    ensures { TurnedAs (form_of alone) pack c v.now stands result }
{
    if c.removal {
        if stands {
            return Ok(0);
        }
        return Err(Refusal::Absent);
    }
    put_size(glances, alone, false, c.tag, v)
}

// A cut, number by number: the bytes between them would be copied too, a few at a time, and waited for.
fn own(c: Cut) -> Cut
    ensures { result ≡ c }
{
    Cut {
        at: c.at,
        next: c.next,
        tag: c.tag,
        removal: c.removal,
        size: c.size,
    }
}

// The cuts in order: two at the same end stay as they were asked.
fn in_order(place: Place, first: Cut, second: Cut) -> Judged
    ensures { result ≡ in_order place first second }
{
    let a = own(first);
    let b = own(second);
    if b.at < a.at {
        let cuts = Cuts {
            place,
            lo: b,
            hi: a,
        };
        return Judged { cuts, turned: true };
    }
    let cuts = Cuts {
        place,
        lo: a,
        hi: b,
    };
    Judged {
        cuts,
        turned: false,
    }
}

// What follows the first change, of m bytes at p: the second in its turn, at q, as the packet has its level, which the first does not change for
// another tag; then 20 and 14 on the result of both.
fn judge_rest(
    glances: &Glances,
    alone: bool,
    c: Change,
    d: Change,
    p: Place,
    q: Place,
    m: usize,
    w: &[u8],
) -> Result<Judged, Refusal>
    ensures { RestAs (form_of alone) c d w.now p q m result }
{
    if c.tag == d.tag || !items::nameable_of(false, d.tag) {
        return Err(Refusal::NotEditable);
    }
    let k = turn_of(glances, alone, d, q.at < q.next, w)?;
    let first = cut_of(c, p, m);
    let second = cut_of(d, q, k);
    ending_fault(alone, false, first, second)?;
    Ok(in_order(p, first, second))
}

// Two changes to the target with an id, in a packet's set: the first in its turn, then what follows it.
pub fn judge(
    glances: &Glances,
    s: &[u8],
    alone: bool,
    id: u64,
    c: Change,
    d: Change,
    v: &[u8],
    w: &[u8],
) -> Result<Judged, Refusal>
    requires { SetOf (form_of alone) s.now × SheetValid (sheet_of (form_of alone) s.now) }
    ensures { TwoAs (form_of alone) id c d v.now w.now s.now result }
{
    if !items::nameable_of(false, c.tag) {
        return Err(Refusal::NotEditable);
    }
    let Some((first, second)) = find::places_of(s, alone, id, c.tag, d.tag) else {
        return Err(Refusal::Absent);
    };
    let m = turn_of(glances, alone, c, first.at < first.next, v)?;
    judge_rest(glances, alone, c, d, first, second, m, w)
}
