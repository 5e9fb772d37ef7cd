// Two changes to one target, made in the order given and judged as one.
ghost use Rattle.format.specs.Valid.{SheetValid};
ghost use Rattle.items.specs.Meet.{form_of};
ghost use Rattle.find.specs.Places.{SetOf};
ghost use Rattle.edit_rules.specs.Meet.{two_of, asked_holder, sheet_of};
ghost use Rattle.answers.specs.Meet.{answer};
ghost use Rattle.answers.specs.Calls.{Edits};
ghost use Rattle.edit.specs.Meet.{SetEdits};

use super::edit_cuts;
use coding::refusals::{Fault, placed};
use edit_rules::{Asked, Change};
use items::quick::Glances;

// An edit of the set of a packet that was checked: the rules, then the packet.
fn edit_set<'a>(
    glances: &Glances,
    s: &[u8],
    alone: bool,
    a: Asked,
    d: Change,
    v: &'a [u8],
    w: &'a [u8],
    out: &mut [u8],
) -> Result<usize, Fault>
    requires { SetOf (form_of alone) s.now × SheetValid (sheet_of (form_of alone) s.now) }
    ensures { SetEdits (form_of alone) (asked_holder a) (two_of a.change d v.now w.now) s.now
        out.old (answer result) out.new }
{
    if a.set {
        return Err(edit_rules::two::set_fault(s, alone, a.change, v).at(0));
    }
    let judged = placed(
        edit_rules::two::judge(glances, s, alone, a.id, a.change, d, v, w),
        0,
    )?;
    edit_cuts(s, alone, false, judged.cuts, judged.turned, v, w, out)
}

// A packet with two items of the target with an id put or removed, or of the set, which is refused; how many bytes it has. v is the value of the
// change that is asked first, w of d, the second; a value that is not put is not read.
pub fn edit_two<'a>(
    packet: &[u8],
    alone: bool,
    a: Asked,
    d: Change,
    v: &'a [u8],
    w: &'a [u8],
    out: &mut [u8],
) -> Result<usize, Fault>
    ensures { Edits (form_of alone) (asked_holder a) (two_of a.change d v.now w.now) packet.now
        out.old (answer result) out.new }
{
    let glances = Glances::new();
    let checked = check_packet::check(&glances, packet, alone)?;
    edit_set(&glances, &packet[checked.from..], alone, a, d, v, w, out)
}
