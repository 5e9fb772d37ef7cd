// Normalise: a packet is checked and its sizes are added up, then its normal form is written.
#![tactic(auto)]

ghost use Rattle.std.specs.Prelude.{◌≡◌};
ghost use Rattle.items.specs.Meet.{form_of};
ghost use Rattle.answers.specs.Meet.{answer};
ghost use Rattle.answers.specs.Calls.{Normalises};

use coding::refusals::{Fault, Refusal};
use items::Table;
use items::quick::Glances;

// A packet to its normal form: what `write` makes of its sheet, with no sheet between; how many bytes that has.
pub fn normalise(packet: &[u8], alone: bool, out: &mut [u8]) -> Result<usize, Fault>
    ensures { Normalises (form_of alone) packet.now out.old (answer result) out.new }
{
    let glances = Glances::new();
    let checked = check_packet::check(&glances, packet, alone)?;
    let sizes = checked.sizes;
    let size = frames::frame_size(alone, sizes.normal);
    if out.len() < size {
        return Err(Refusal::RoomTooShort.at(size));
    }
    // No piece grows, so a normal form of as many bytes is the packet itself.
    if size == packet.len() {
        stores::copy_all(out, 0, packet);
        return Ok(size);
    }
    let from = frames::open(out, alone, sizes.normal);
    let table = Table::new();
    let mut bits = [0u64; 64];
    let wrote = write_normal::item_normal(
        &table,
        &glances,
        &packet[checked.from..],
        true,
        alone,
        sizes.inner,
        &mut bits,
        &mut out[from..],
    );
    frames::close(out, alone, from + wrote);
    Ok(size)
}
