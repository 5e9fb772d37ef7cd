// Answers questions on standard input, locate and show, each in a frame. docs/QUESTIONS.md has the format.
#![tactic(auto)]

ghost use Rattle.std.specs.Prelude.{◌≤◌, false, ◌≡◌, length};

// The standard streams, by number: std's would rest the program on one more C function.
const INPUT: i32 = 0;

const OUTPUT: i32 = 1;

// What may be asked.
#[derive(Clone, Copy)]
enum Kind {
    Locate,
    Show,
}

impl TryFrom<u64> for Kind {
    type Error = End;

    fn try_from(byte: u64) -> Result<Kind, End> {
        match byte {
            0x4C => Ok(Kind::Locate),
            0x53 => Ok(Kind::Show),
            _ => Err(End::UnknownKind),
        }
    }
}

// Why no question follows.
#[derive(Clone, Copy)]
enum End {
    Ended,
    CutOff,
    TooLong,
    UnknownKind,
}

impl End {
    fn number(self) -> u64 {
        match self {
            End::Ended => 1,
            End::CutOff => 2,
            End::TooLong => 3,
            End::UnknownKind => 4,
        }
    }
}

// A number, eight bytes.
fn number(n: u64) {
    io::write_all(OUTPUT, &n.to_be_bytes());
}

// Every number of a table, in one write.
fn numbers(table: &[u64])
    requires { length table.now ≤ 16384 }
{
    let mut bytes = [0u8; 131072];
    for (room, n) in bytes.chunks_exact_mut(8).zip(table) {
        room.copy_from_slice(&n.to_be_bytes());
    }
    io::write_all(OUTPUT, &bytes[..8 * table.len()]);
}

// The answer to locate: its number and place or count, then the whole table, written or not.
fn located(packet: &[u8], alone: bool, table: &mut [u64])
    requires { length table.old ≤ 16384 }
{
    let (why, place) = match locate::locate_numbers(packet, alone, table) {
        Ok(count) => (0, count),
        Err(fault) => (fault.refusal.number(), fault.place),
    };
    number(why);
    number(place as u64);
    numbers(table);
}

// The same, of a table of so many rows, each number 7.
fn located_of(packet: &[u8], alone: bool, room: usize)
    requires { room ≤ 4096 }
{
    let mut table = [7u64; 16384];
    located(packet, alone, &mut table[..4 * room]);
}

// What heads a frame.
#[derive(Clone, Copy)]
struct Head {
    kind: u64,
    alone: bool,
    set: bool,
    id: u64,
    tag: u64,
    room: usize,
    reviewers: usize,
    detectors: usize,
}

// The answer to show: whose packet, the offset and size of the part, and its bytes.
fn shown(reviewer: &[u8], detector: &[u8], head: Head) {
    let part = show::shown(reviewer, detector, head.alone, head.set, head.id, head.tag);
    number(u64::from(part.detectors));
    number(part.offset as u64);
    number(part.size as u64);
    io::write_all(
        OUTPUT,
        show::show(reviewer, detector, head.alone, head.set, head.id, head.tag),
    );
}

// The number that the next k bytes spell; those that the input has no more are 0.
fn number_in(k: usize) -> u64
    requires { k ≤ 8 }
{
    let mut bytes = [0u8; 8];
    io::read_full(INPUT, &mut bytes[8 - k..]);
    u64::from_be_bytes(bytes)
}

fn head_in() -> Head {
    Head {
        kind: number_in(1),
        alone: number_in(1) != 0,
        set: number_in(1) == 0,
        id: number_in(8),
        tag: number_in(8),
        room: number_in(2) as usize,
        reviewers: number_in(4) as usize,
        detectors: number_in(4) as usize,
    }
}

impl Head {
    fn is_long(self) -> bool
        ensures { result ≡ false → (self.room ≤ 4096) × (self.reviewers ≤ 16384) × (self.detectors ≤ 16384) }
    {
        4096 < self.room || 16384 < self.reviewers || 16384 < self.detectors
    }
}

// The answer to a question. The detector's packet follows the reviewer's; locate is asked of the reviewer's.
fn answered(head: Head, packets: &[u8]) -> Result<(), End>
    requires { (head.reviewers ≤ length packets.now) × (head.room ≤ 4096) }
{
    let (reviewer, detector) = packets.split_at(head.reviewers);
    match Kind::try_from(head.kind)? {
        Kind::Locate => located_of(reviewer, head.alone, head.room),
        Kind::Show => shown(reviewer, detector, head),
    }
    Ok(())
}

// One question: what heads it, the packets, and the kind once more. Where the input ended before, that is not there.
fn question() -> Result<(), End> {
    let mut packets = [0u8; 32768];
    let head = head_in();
    if head.kind == 0 {
        return Err(End::Ended);
    }
    if head.is_long() {
        return Err(End::TooLong);
    }
    let packets = &mut packets[..head.reviewers + head.detectors];
    io::read_full(INPUT, packets);
    if number_in(1) != head.kind {
        return Err(End::CutOff);
    }
    answered(head, packets)
}

// A proved loop has to end, and nothing says that the input does: it counts its turns, and no run uses them up.
fn questions() -> Result<(), End> {
    for _ in 0..u64::MAX {
        question()?;
    }
    Ok(())
}

fn main() {
    let why = match questions() {
        Ok(()) => 0,
        Err(end) => end.number(),
    };
    number(why);
}
