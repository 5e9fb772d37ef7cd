// Most items are told at a glance: a tag that the table lists, a length below 30 that it allows, and no zero before a number; or a tag
// that no table lists. It says yes or nothing: of a tag or a length of two bytes, a length of 30 or more in a listed tag, a number that begins
// with 0, the set's checksum and its series it does not know. A row is here the one of its tag among those for a glance.
ghost use Rattle.std.specs.Prelude.{◌≡◌, ◌<◌, true, IfSome};
ghost use Rattle.items.specs.Meet.{form_of, level_of, glance_table};
ghost use Rattle.items.specs.Quick.{Glanced, Looked, row_tells, least_row, beyond};

// A row for each tag, of a pack, then of the set: two bits, then bit by bit the lengths below 30 that are told so, none of what no record may
// name. The two bits: 3 a number or a pixel, which at a glance may not begin with 0; 0 an offset, which may stand in embedded only; 1 any other.
const GLANCES: [u32; 37] = [
    1 << 30 | 0x0, // 0
    3 << 30 | 0x7e, // 1
    3 << 30 | 0x7e, // 2
    3 << 30 | 0x7e, // 3
    1 << 30 | 0x2, // 4
    1 << 30 | 0x2, // 5
    3 << 30 | 0x6, // 6
    1 << 30 | 0x2, // 7
    1 << 30 | 0x8, // 8
    3 << 30 | 0xe, // 9
    0 << 30 | 0x8, // 10
    0 << 30 | 0x8, // 11
    1 << 30 | 0x4, // 12
    0 << 30 | 0x8, // 13
    0 << 30 | 0x8, // 14
    0 << 30 | 0x8, // 15
    0 << 30 | 0x8, // 16
    1 << 30 | 0x410400, // 17
    1 << 30 | 0x3ffffffe, // 18
    3 << 30 | 0x1e, // 19
    3 << 30 | 0x1e, // 20
    1 << 30 | 0x3ffffffe, // 21
    3 << 30 | 0xe, // 22
    1 << 30 | 0x2, // 23
    // the set
    1 << 30 | 0x0, // 0
    1 << 30 | 0x0, // 1
    1 << 30 | 0x100, // 2
    1 << 30 | 0x3ffffffe, // 3
    3 << 30 | 0x6, // 4
    3 << 30 | 0xe, // 5
    3 << 30 | 0xe, // 6
    1 << 30 | 0x3ffffffe, // 7
    3 << 30 | 0xe, // 8
    3 << 30 | 0xe, // 9
    1 << 30 | 0x3ffffffe, // 10
    1 << 30 | 0x4, // 11
    1 << 30 | 0x4, // 12
];

// The rows for a glance. Apart from the item table: where all is told at a glance, that is not laid out.
#[derive(Clone, Copy)]
pub struct Glances {
    pub rows: [u32; 37],
    ghost told: { rows ≡ glance_table },
}

impl Glances {
    pub fn new() -> Glances {
        Glances { rows: GLANCES }
    }
}

// Whether a row's bits have this length. The uppermost is set in the kinds of a number, whose first byte may not be 0.
fn fits(row: u32, n: u64, first: u8) -> bool
    ensures { result ≡ row_tells row n first }
{
    if 29 < n {
        return false;
    }
    if (row >> n) % 2 == 0 {
        return false;
    }
    (row >> 31) <= (first as u32)
}

// The least row that may stand wherever an item may: in a standalone packet those of the six offsets are below it, elsewhere none is. No row
// is 0, and with 0 for 1 the compiler would test the form at each item.
fn least_row(alone: bool) -> u32
    ensures { result ≡ least_row alone }
{
    if alone { 1 << 30 } else { 1 }
}

// Whether no table lists a tag: then any value of a byte or more will do, wherever it may begin. The set's series is not one of these.
pub fn is_beyond(set: bool, tag: u64) -> bool
    ensures { result ≡ beyond set tag }
{
    if set {
        if 12 < tag {
            return tag != 101;
        }
        return false;
    }
    23 < tag
}

// The same with a byte each for the tag and the length, of which there is one or more.
fn is_other(set: bool, tag: u64, n: u64) -> bool
    ensures { result ≡ true → (tag < 128) × (n < 128) × (0 < n) × (beyond set tag ≡ true) }
{
    if 127 < tag {
        return false;
    }
    if 127 < n {
        return false;
    }
    if n == 0 {
        return false;
    }
    is_beyond(set, tag)
}

// Whether an item with this tag, whose value has n bytes and begins with this one, meets the rules for one item wherever it may begin,
// and is shortest as it stands, tag and length too. Where it says no, nothing is known.
pub fn is_glanced(glances: &Glances, set: bool, alone: bool, tag: u64, n: u64, first: u8) -> bool
    ensures { result ≡ true → (tag < 128) × (n < 128) × Glanced (level_of set) (form_of alone) tag n first }
{
    if super::most_tag(set) < tag {
        return is_other(set, tag, n);
    }
    let row = super::row_at(&glances.rows, set, tag);
    if row < least_row(alone) {
        return false;
    }
    fits(row, n, first)
}

// What an item laid out alike has to begin its value with, beside one that is told so: 0 anything, 1 the same byte or any but 0. Asked of one that was
// told, only the uppermost bit of its row is left to read.
pub fn first_mask(glances: &Glances, set: bool, alone: bool, tag: u64, n: u64) -> u8
    ensures { result ≡ 0 → Glanced (level_of set) (form_of alone) tag n 0 }
{
    if super::most_tag(set) < tag {
        if is_other(set, tag, n) {
            return 0;
        }
        return 1;
    }
    let row = super::row_at(&glances.rows, set, tag);
    if row < least_row(alone) {
        return 1;
    }
    if !fits(row, n, 1) {
        return 1;
    }
    (row >> 31) as u8
}

// A closer look, at the value: the bytes of its shortest form, where an item with this tag and value meets the rules for one item wherever it may
// begin. Zeros may stand before a number, if that is not 0. `None` says nothing.
pub fn closer_size(glances: &Glances, set: bool, alone: bool, tag: u64, v: &[u8]) -> Option<usize>
    ensures { IfSome result (λ n. (tag < 128) × (n < 128) × Looked (level_of set) (form_of alone) tag v.now n) }
{
    let size = v.len();
    let n = size as u64;
    if super::most_tag(set) < tag {
        if is_other(set, tag, n) {
            return Some(size);
        }
        return None;
    }
    let row = super::row_at(&glances.rows, set, tag);
    if row < least_row(alone) {
        return None;
    }
    if !fits(row, n, 1) {
        return None;
    }
    if row >> 31 == 0 {
        return Some(size);
    }
    let shortest = size - super::leading(v);
    if shortest == 0 {
        return None;
    }
    Some(shortest)
}
