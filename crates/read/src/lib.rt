// Read: a packet is checked and its sizes are added up, then its sheet is written.
#![tactic(auto)]

ghost use Rattle.std.specs.Prelude.{◌≡◌, ◌+◌, ◌*◌};
ghost use Rattle.format.specs.Sheet.{PK, mark_number, form_byte};
ghost use Rattle.items.specs.Meet.{form_of};
ghost use Rattle.answers.specs.Meet.{answer};
ghost use Rattle.answers.specs.Calls.{Reads};

use coding::refusals::{Fault, Refusal};
use heads::records;
use items::Table;
use items::quick::Glances;

// `PK` and the form, as one number.
fn head_of(alone: bool) -> u64
    ensures { result ≡ mark_number PK * 256 + form_byte (form_of alone) }
{
    if alone {
        (records::PK << 8) + 1
    } else {
        records::PK << 8
    }
}

// A packet to its sheet; how many bytes that has.
pub fn read(packet: &[u8], alone: bool, sheet: &mut [u8]) -> Result<usize, Fault>
    ensures { Reads (form_of alone) packet.now sheet.old (answer result) sheet.new }
{
    let glances = Glances::new();
    let checked = check_packet::check(&glances, packet, alone)?;
    let size = checked.sizes.sheet;
    if sheet.len() < size {
        return Err(Refusal::RoomTooShort.at(size));
    }
    stores::put_number(sheet, 0, head_of(alone), 3);
    let table = Table::new();
    write_sheet::item_sheet(&table, &packet[checked.from..], &mut sheet[3..]);
    Ok(size)
}
