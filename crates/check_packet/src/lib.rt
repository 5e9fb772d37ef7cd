// The whole packet: what opens it, its set, and what closes it.
#![tactic(auto)]

ghost use Rattle.std.specs.Prelude.{◌≡◌, ◌≤◌, length};
ghost use Rattle.format.specs.Table.{standalone};
ghost use Rattle.format.specs.Read.{opening, start, parse};
ghost use Rattle.items.specs.Meet.{form_of};
ghost use Rattle.tally.specs.Meet.{is_held};
ghost use Rattle.check_packet.specs.Meet.{check_of, checked, checked_of, opened, closing_by, fine_of, sum_right};

use coding::refusals::{Fault, Refusal, later, placed};
use items::quick::Glances;
use tally::Sizes;

pub mod sets; // sets.rt: its set

// The sizes of what a packet says, and where its set begins.
#[derive(Clone, Copy, Debug, PartialEq, Eq)]
pub struct Checked {
    pub sizes: Sizes,
    pub from: usize,
}

// ---- what opens it

// The key and the outer length, which says how many bytes follow it: 2, 3, 5, 6. How many bytes the length takes.
fn outer_of(s: &[u8]) -> Result<usize, Refusal>
    ensures { opened result ≡ opening standalone s.now }
{
    if !coding::has_key(s) {
        return Err(Refusal::NotTheKey);
    }
    let length = coding::len_of(&s[16..])?;
    let from = 16 + length.used;
    if s.len() - from != length.value as usize {
        return Err(Refusal::PastEnd);
    }
    Ok(length.used)
}

// An embedded packet has neither.
fn opening_of(s: &[u8], alone: bool) -> Result<usize, Refusal>
    ensures { opened result ≡ opening (form_of alone) s.now }
{
    if alone {
        return outer_of(s);
    }
    Ok(0)
}

// Where the set begins.
fn start_of(alone: bool, width: usize) -> usize
    requires { width ≤ 8192 }
    ensures { result ≡ start (form_of alone) width }
{
    if alone { 16 + width } else { 0 }
}

// ---- what closes it

// Whether the last two bytes are the checksum of those before them.
fn is_sealed(s: &[u8]) -> bool
    requires { (2 ≤ length s.now) × (length s.now ≤ 8192) }
    ensures { result ≡ sum_right s.now }
{
    let n = s.len() - 2;
    coding::sum_of(s, n) == coding::number_of(&s[n..], 2)
}

// Three bytes stand before the parts of a sheet.
fn fine(a: Sizes, from: usize) -> Checked
    requires { a.sheet ≤ 40960 }
    ensures { check_of result ≡ fine_of a from }
{
    Checked {
        sizes: Sizes {
            sheet: 3 + a.sheet,
            ..a
        },
        from,
    }
}

// Of a set of these sizes, that holds these tags and begins at `from`: 14, 15.
fn closing_of(s: &[u8], alone: bool, held: u64, a: Sizes, from: usize) -> Result<Checked, Fault>
    requires { (start (form_of alone) 0 ≤ length s.now) × (length s.now ≤ 8192) × (a.sheet ≤ 40960) }
    ensures { checked result ≡ closing_by (form_of alone) s.now (is_held 1 held) a from }
{
    if alone {
        if !tally::is_held(1, held) {
            return Err(Refusal::Missing.at(s.len()));
        }
        if !is_sealed(s) {
            return Err(Refusal::ChecksumDiffers.at(s.len() - 4));
        }
    }
    Ok(fine(a, from))
}

// The sizes of what a packet says, and where its set begins; or the refusal: 1, what opens it, the set, what closes it.
pub fn check(glances: &Glances, s: &[u8], alone: bool) -> Result<Checked, Fault>
    ensures { checked result ≡ checked_of (parse (form_of alone) s.now) }
{
    if 8192 < s.len() {
        return Err(Refusal::OverLimit.at(0));
    }
    let width = placed(opening_of(s, alone), 0)?;
    let from = start_of(alone, width);
    let set = later(sets::set_walk(glances, &s[from..], alone), from)?;
    closing_of(s, alone, set.held, set.sizes, from)
}
