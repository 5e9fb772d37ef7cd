// Locate: a packet is checked and its rows are counted, then they are written.
#![tactic(auto)]

ghost use Rattle.std.specs.Prelude.{◌≡◌};
ghost use Rattle.items.specs.Meet.{form_of};
ghost use Rattle.answers.specs.Meet.{answer};
ghost use Rattle.locate.specs.Meet.{Locates};

use coding::refusals::{Fault, Refusal};
use items::quick::Glances;

// A packet's rows, as numbers, four to a row; how many rows.
pub fn locate_numbers(packet: &[u8], alone: bool, rows: &mut [u64]) -> Result<usize, Fault>
    ensures { Locates (form_of alone) packet.now rows.old (answer result) rows.new }
{
    let glances = Glances::new();
    let checked = check_packet::check(&glances, packet, alone)?;
    let count = checked.sizes.rows;
    if rows.len() < 4 * count {
        return Err(Refusal::RoomTooShort.at(count));
    }
    write_rows::item_rows(&packet[checked.from..], checked.from, 0, true, rows);
    Ok(count)
}

pub mod table; // table.rt: rows as a lent slice of structs
