// A packet is checked, then written with one target added or dropped. Each way has a module of its own; here is what they share.
#![tactic(auto)]

ghost use Rattle.std.specs.Prelude.{◌≡◌};
ghost use Rattle.items.specs.Meet.{form_of};
ghost use Rattle.write_packet.specs.Meet.{targets_normal};
ghost use Rattle.answers.specs.Meet.{answer, EntriesPacked};
ghost use Rattle.target_bytes.specs.Meet.{entries_put};
ghost use Rattle.add_drop.specs.Meet.{Changing};

pub mod adding;
pub mod dropping;

use coding::refusals::{Fault, Refusal};
use find::around::Series;

// The packet without the pack that the series names, with so many bytes added that the records make, and with the count for tag 6: 1, 16. How many
// bytes it has.
fn put_changed(
    s: &[u8],
    alone: bool,
    series: Series,
    count: usize,
    added: usize,
    records: &[u8],
    out: &mut [u8],
) -> Result<usize, Fault>
    requires { Changing (form_of alone) s.now series count added records.now }
    ensures { EntriesPacked (form_of alone) (entries_put s.now series count (targets_normal (form_of alone) records.now))
        out.old (answer result) out.new }
{
    let inner = target_bytes::packs_size(series, added);
    let body = target_bytes::entries_size(series, count, inner);
    let total = frames::frame_size(alone, body);
    if 8192 < total {
        return Err(Refusal::OverLimit.at(0));
    }
    if out.len() < total {
        return Err(Refusal::RoomTooShort.at(total));
    }
    let from = frames::open(out, alone, body);
    let wrote = target_bytes::put_entries(s, series, count, inner, records, &mut out[from..]);
    frames::close(out, alone, from + wrote);
    Ok(total)
}
