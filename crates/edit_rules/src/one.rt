// One change: 19, 18, then for a put 7, 13, 11, 12; then 20 and 14 on the result.
ghost use Rattle.std.specs.Prelude.{◌≡◌};
ghost use Rattle.format.specs.Valid.{SheetValid};
ghost use Rattle.items.specs.Meet.{form_of};
ghost use Rattle.find.specs.Places.{SetOf};
ghost use Rattle.edit_rules.specs.Meet.{sheet_of, LeftAs, OneAs};

use super::{Asked, cut_of, ending_fault, no_cut, put_size};
use coding::refusals::Refusal;
use find::Place;
use items::quick::Glances;

// The place of the item, and how many bytes of the value are put.
#[derive(Clone, Copy)]
pub struct Judged {
    pub place: Place,
    pub size: usize,
}

// A change of that size at its place: whether it leaves the level right.
fn left_of(alone: bool, a: Asked, place: Place, size: usize) -> Result<Judged, Refusal>
    ensures { LeftAs (form_of alone) a place size result }
{
    let cut = cut_of(a.change, place, size);
    ending_fault(alone, a.set, cut, no_cut(place.next))?;
    Ok(Judged { place, size })
}

// An edit of a packet's set. What a removal leaves is asked in its own branch, and so is what a put leaves: the compiler then knows which it is.
pub fn judge(
    glances: &Glances,
    s: &[u8],
    alone: bool,
    a: Asked,
    v: &[u8],
) -> Result<Judged, Refusal>
    requires { SetOf (form_of alone) s.now × SheetValid (sheet_of (form_of alone) s.now) }
    ensures { OneAs (form_of alone) a v.now s.now result }
{
    let c = a.change;
    if !items::nameable_of(a.set, c.tag) {
        return Err(Refusal::NotEditable);
    }
    let Some(place) = find::place_of(s, alone, a.set, a.id, c.tag) else {
        return Err(Refusal::Absent);
    };
    if c.removal {
        if place.at < place.next {
            return left_of(alone, a, place, 0);
        }
        return Err(Refusal::Absent);
    }
    let size = put_size(glances, alone, a.set, c.tag, v)?;
    left_of(alone, a, place, size)
}
