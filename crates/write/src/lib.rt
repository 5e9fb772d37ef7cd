// Write: a sheet is checked and the sizes of its packet are added up, then the packet is written.
#![tactic(auto)]

ghost use Rattle.std.specs.Prelude.{◌≡◌};
ghost use Rattle.answers.specs.Meet.{answer};
ghost use Rattle.answers.specs.Calls.{Writes};

use coding::refusals::{Fault, Refusal};

// A sheet to its packet; how many bytes that has.
pub fn write(sheet: &[u8], packet: &mut [u8]) -> Result<usize, Fault>
    ensures { Writes sheet.now packet.old (answer result) packet.new }
{
    let checked = check_sheet::check(sheet)?;
    let alone = checked.alone;
    let size = frames::frame_size(alone, checked.normal);
    if 8192 < size {
        return Err(Refusal::OverLimit.at(0));
    }
    if packet.len() < size {
        return Err(Refusal::RoomTooShort.at(size));
    }
    let from = frames::open(packet, alone, checked.normal);
    let wrote = write_packet::item_packet(&sheet[3..], checked.inner, &mut packet[from..]);
    frames::close(packet, alone, from + wrote);
    Ok(size)
}
