// Show: the value of an item, as a part of one of two packets that are lent.
#![tactic(auto)]

ghost use Rattle.std.specs.Prelude.{◌≡◌, true, ℕ, unwrap_or};
ghost use Rattle.format.specs.Show as Show;
ghost use Rattle.items.specs.Meet.{form_of};
ghost use Rattle.find.specs.Places.{holder_of};
ghost use Rattle.show.specs.Meet.{ValueIn, FineFrom, no_part};
ghost use Rattle.show.specs.Shows.{Names, Shows};

use items::quick::Glances;

// Which part of which of the two packets is shown.
#[derive(Clone, Copy, Debug, PartialEq, Eq)]
pub struct Part {
    pub detectors: bool,
    pub offset: usize,
    pub size: usize,
}

// The empty part at the detector's start: the one way to say no.
fn nothing() -> Part
    ensures { result ≡ no_part }
{
    Part {
        detectors: true,
        offset: 0,
        size: 0,
    }
}

// Whether this names an item, and not set tag 101.
fn is_showable(set: bool, tag: u64) -> bool
    ensures { (id : ℕ) → result ≡ Show.showable (holder_of set id) tag }
{
    if tag == 0 {
        return false;
    }
    if set {
        return tag != 101;
    }
    true
}

// Where a value stands: its offset from the packet's start, and its length.
#[derive(Clone, Copy, Debug, PartialEq, Eq)]
struct Value {
    offset: usize,
    size: usize,
}

// Where the item's value stands, if it is there, in a packet that was found fine, whose set begins at `from`: as the item's place says.
fn value_in(packet: &[u8], from: usize, alone: bool, set: bool, id: u64, tag: u64) -> Option<Value>
    requires { (Show.showable (holder_of set id) tag ≡ true) × FineFrom (form_of alone) packet.now from }
    ensures { ValueIn (form_of alone) packet.now (holder_of set id) tag result }
{
    let place = find::place_of(&packet[from..], alone, set, id, tag)?;
    if place.next <= place.at {
        return None;
    }
    Some(Value {
        offset: from + place.from,
        size: place.next - place.from,
    })
}

// The value's part of the reviewer's packet if that has the item, else of the detector's, if that has it.
fn part_of(
    reviewer: &[u8],
    detector: &[u8],
    alone: bool,
    set: bool,
    id: u64,
    tag: u64,
) -> Option<Part>
    ensures { Names (form_of alone) reviewer.now detector.now (holder_of set id) tag (unwrap_or result no_part) }
{
    let glances = Glances::new();
    let first = check_packet::check(&glances, reviewer, alone).ok()?;
    let second = check_packet::check(&glances, detector, alone).ok()?;
    if !is_showable(set, tag) {
        return None;
    }
    if let Some(value) = value_in(reviewer, first.from, alone, set, id, tag) {
        return Some(Part {
            detectors: false,
            offset: value.offset,
            size: value.size,
        });
    }
    let value = value_in(detector, second.from, alone, set, id, tag)?;
    Some(Part {
        detectors: true,
        offset: value.offset,
        size: value.size,
    })
}

// Which part is shown.
pub fn shown(reviewer: &[u8], detector: &[u8], alone: bool, set: bool, id: u64, tag: u64) -> Part
    ensures { Names (form_of alone) reviewer.now detector.now (holder_of set id) tag result }
{
    part_of(reviewer, detector, alone, set, id, tag).unwrap_or(nothing())
}

// That part.
pub fn show<'a>(
    reviewer: &'a [u8],
    detector: &'a [u8],
    alone: bool,
    set: bool,
    id: u64,
    tag: u64,
) -> &'a [u8]
    ensures { Shows (form_of alone) reviewer.now detector.now reviewer.entry.ref_ptr detector.entry.ref_ptr
        (holder_of set id) tag result.now result.ref_ptr }
{
    let part = shown(reviewer, detector, alone, set, id, tag);
    let from = part.offset;
    let to = from + part.size;
    if part.detectors {
        return &detector[from..to];
    }
    &reviewer[from..to]
}
