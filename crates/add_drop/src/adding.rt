// A target added at the series' end.
ghost use Rattle.std.specs.Prelude.{◌≡◌, Ok};
ghost use Rattle.format.specs.Targets.{new_target};
ghost use Rattle.items.specs.Meet.{form_of};
ghost use Rattle.find.specs.Places.{SetOf};
ghost use Rattle.answers.specs.Meet.{answer};
ghost use Rattle.answers.specs.Calls.{Adds};
ghost use Rattle.check_target.specs.Meet.{target_told, ToldAs};
ghost use Rattle.add_drop.specs.Meet.{SetAdds};

use super::put_changed;
use check_target::Told;
use coding::refusals::{Fault, Refusal, placed};
use items::quick::Glances;

// A target that was checked added to a set that was: 10, 20, 14, 1, 16.
fn add_told(
    s: &[u8],
    alone: bool,
    target: Told,
    records: &[u8],
    out: &mut [u8],
) -> Result<usize, Fault>
    requires { SetOf (form_of alone) s.now × ToldAs (new_target (form_of alone) records.now) (target_told (Ok target)) }
    ensures { SetAdds (form_of alone) s.now records.now out.old (answer result) out.new }
{
    let series = find::around::series_of(s, alone, target.id);
    if series.pack < series.last {
        return Err(Refusal::IdRepeated.at(0));
    }
    placed(tally::ended_of(alone, target.held), 0)?;
    if 8192 < target.size {
        return Err(Refusal::OverLimit.at(0));
    }
    put_changed(
        s,
        alone,
        series,
        series.count + 1,
        target.size,
        records,
        out,
    )
}

// A packet with the target that the records are, one `TG` with its `TI`s; how many bytes that has.
pub fn add_target(
    packet: &[u8],
    alone: bool,
    records: &[u8],
    out: &mut [u8],
) -> Result<usize, Fault>
    ensures { Adds (form_of alone) packet.now records.now out.old (answer result) out.new }
{
    let glances = Glances::new();
    let checked = check_packet::check(&glances, packet, alone)?;
    let target = placed(check_target::check(&glances, records, alone), 0)?;
    add_told(&packet[checked.from..], alone, target, records, out)
}
