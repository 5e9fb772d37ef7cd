// A packet's rows in a lent slice of structs, thin, over the call that has them as numbers.
ghost use Rattle.std.specs.Prelude.{◌≡◌, ◌≤◌, length};
ghost use Rattle.format.specs.Rows as Rows;
ghost use Rattle.items.specs.Meet.{form_of};
ghost use Rattle.answers.specs.Meet.{answer};
ghost use Rattle.locate.specs.Meet.{Tables, Filled};

use coding::refusals::{Fault, Refusal};
pub use write_rows::table::Row;

// What a table with so much room is to be answered, and its rows as numbers, for which 4,096 times four suffice.
fn numbered(packet: &[u8], alone: bool, room: usize, numbers: &mut [u64]) -> Result<usize, Fault>
    requires { 16384 ≤ length numbers.old }
    ensures { Filled room (Rows.locate (form_of alone) packet.now) (answer result) numbers.new }
{
    let count = super::locate_numbers(packet, alone, numbers)?;
    if room < count {
        return Err(Refusal::RoomTooShort.at(count));
    }
    Ok(count)
}

// A packet's rows; how many.
pub fn locate(packet: &[u8], alone: bool, rows: &mut [Row]) -> Result<usize, Fault>
    ensures { Tables (form_of alone) packet.now rows.old (answer result) rows.new }
{
    let mut numbers = [0u64; 16384];
    let count = numbered(packet, alone, rows.len(), &mut numbers)?;
    write_rows::table::fill_rows(&numbers, count, rows);
    Ok(count)
}
