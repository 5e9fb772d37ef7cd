// Prints the rows of the packet on standard input: standalone if the key opens it, else embedded.
#![tactic(auto)]

ghost use Rattle.std.specs.Prelude.{◌*◌, ◌≤◌, length};

use coding::refusals::Fault;
use write_rows::table::{Row, row_at};

// The standard streams, by number: std's would rest the program on one more C function.
const INPUT: i32 = 0;

const OUTPUT: i32 = 1;

// One number and what follows it.
fn number(n: u64, after: &[u8]) {
    io::print_decimal(OUTPUT, n);
    io::write_all(OUTPUT, after);
}

fn refused(fault: Fault) {
    io::write_all(OUTPUT, b"refused ");
    number(fault.refusal.number(), b" ");
    number(fault.place as u64, b"\n");
}

fn form(alone: bool) {
    if alone {
        io::write_all(OUTPUT, b"accepted standalone ");
    } else {
        io::write_all(OUTPUT, b"accepted embedded ");
    }
}

fn row(r: Row) {
    number(r.target, b" ");
    number(r.tag, b" ");
    number(r.offset, b" ");
    number(r.size, b"\n");
}

// Four numbers to a row.
fn rows(table: &[u64], count: usize)
    requires { 4 * count ≤ length table.now }
{
    for i in 0..count {
        row(row_at(table, i));
    }
}

fn report(packet: &[u8]) {
    let mut table = [0u64; 16384];
    let alone = coding::has_key(packet);
    match locate::locate_numbers(packet, alone, &mut table) {
        Ok(count) => {
            form(alone);
            number(packet.len() as u64, b" ");
            number(count as u64, b"\n");
            rows(&table, count);
        }
        Err(fault) => refused(fault),
    }
}

fn main() {
    let mut room = [0u8; 8193];
    let n = io::read_full(INPUT, &mut room);
    report(&room[..n]);
}
