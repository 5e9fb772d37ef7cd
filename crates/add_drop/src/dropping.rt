// A target dropped with all its items.
ghost use Rattle.std.specs.Prelude.{◌≡◌};
ghost use Rattle.format.specs.Targets.{dropped};
ghost use Rattle.items.specs.Meet.{form_of};
ghost use Rattle.find.specs.Places.{SetOf};
ghost use Rattle.answers.specs.Meet.{answer};
ghost use Rattle.answers.specs.Calls.{Drops};
ghost use Rattle.add_drop.specs.Meet.{SetChanges};

use super::put_changed;
use coding::refusals::{Fault, Refusal};
use items::quick::Glances;

// The target with an id dropped from a set that was checked: 18, 16.
fn drop_from(s: &[u8], alone: bool, id: u64, out: &mut [u8]) -> Result<usize, Fault>
    requires { SetOf (form_of alone) s.now }
    ensures { SetChanges (form_of alone) (dropped id) s.now out.old (answer result) out.new }
{
    let series = find::around::series_of(s, alone, id);
    if series.last <= series.pack {
        return Err(Refusal::Absent.at(0));
    }
    put_changed(s, alone, series, series.count - 1, 0, &s[0..0], out)
}

// A packet without the target with an id; how many bytes that has.
pub fn drop_target(packet: &[u8], alone: bool, id: u64, out: &mut [u8]) -> Result<usize, Fault>
    ensures { Drops (form_of alone) packet.now id out.old (answer result) out.new }
{
    let glances = Glances::new();
    let checked = check_packet::check(&glances, packet, alone)?;
    drop_from(&packet[checked.from..], alone, id, out)
}
