// The constant item table, and the rules for one item: of a set or a pack, in a packet, a sheet or an edit.
#![tactic(auto)]

ghost use Rattle.std.specs.Prelude.{◌≡◌, ℕ, ◌+◌, ◌≤◌, ◌<◌, ◌||◌, not, List, length, get_or, eqb};
ghost use Rattle.format.specs.Lists.{has, none?};
ghost use Rattle.format.specs.Table.{is_alone, is_set, rule_of, nameable, may_stand, standing, sized, is_number, valued, short};
ghost use Rattle.items.specs.Meet.{form_of, level_of, rule_from, row_from, kind_number, row_rule, most_tag, rows_from, item_table, answered, zeros, offsets};

use coding::refusals::Refusal;

// A tag that is not listed, of one or more bytes; bytes, a number, a pixel; and a location, of 10, 16 or 22 bytes.
#[derive(Clone, Copy, Debug, PartialEq, Eq)]
pub enum Kind {
    Unlisted,
    Bytes,
    Number,
    Pixel,
    Location,
}

// What a tag's row says: its kind, its least and greatest length.
#[derive(Clone, Copy, Debug, PartialEq, Eq)]
pub struct Rule {
    pub kind: Kind,
    pub least: u32,
    pub most: u32,
}

// The kinds as a row has them.
const UNLISTED: u32 = 0;

const BYTES: u32 = 1;

const NUMBER: u32 = 2;

const PIXEL: u32 = 3;

const LOCATION: u32 = 4;

// A row for each tag, of a pack, then of the set: kind, least and greatest length. Of 32 bits each, as the compiler lays out four of those
// at once.
const ITEMS: [u32; 37] = [
    UNLISTED << 16 | 1 << 8 | 0, // 0
    PIXEL << 16 | 1 << 8 | 6, // 1
    PIXEL << 16 | 1 << 8 | 6, // 2
    PIXEL << 16 | 1 << 8 | 6, // 3
    BYTES << 16 | 1 << 8 | 1, // 4
    BYTES << 16 | 1 << 8 | 1, // 5
    NUMBER << 16 | 1 << 8 | 2, // 6
    BYTES << 16 | 1 << 8 | 1, // 7
    BYTES << 16 | 3 << 8 | 3, // 8
    NUMBER << 16 | 1 << 8 | 3, // 9
    BYTES << 16 | 3 << 8 | 3, // 10
    BYTES << 16 | 3 << 8 | 3, // 11
    BYTES << 16 | 2 << 8 | 2, // 12
    BYTES << 16 | 3 << 8 | 3, // 13
    BYTES << 16 | 3 << 8 | 3, // 14
    BYTES << 16 | 3 << 8 | 3, // 15
    BYTES << 16 | 3 << 8 | 3, // 16
    LOCATION << 16 | 10 << 8 | 22, // 17
    UNLISTED << 16 | 1 << 8 | 0, // 18
    PIXEL << 16 | 1 << 8 | 4, // 19
    PIXEL << 16 | 1 << 8 | 4, // 20
    UNLISTED << 16 | 1 << 8 | 0, // 21
    NUMBER << 16 | 1 << 8 | 3, // 22
    BYTES << 16 | 1 << 8 | 1, // 23
    // the set
    UNLISTED << 16 | 1 << 8 | 0, // 0
    BYTES << 16 | 2 << 8 | 2, // 1
    BYTES << 16 | 8 << 8 | 8, // 2
    BYTES << 16 | 1 << 8 | 32, // 3
    NUMBER << 16 | 1 << 8 | 2, // 4
    NUMBER << 16 | 1 << 8 | 3, // 5
    NUMBER << 16 | 1 << 8 | 3, // 6
    UNLISTED << 16 | 1 << 8 | 0, // 7
    NUMBER << 16 | 1 << 8 | 3, // 8
    NUMBER << 16 | 1 << 8 | 3, // 9
    BYTES << 16 | 1 << 8 | 128, // 10
    BYTES << 16 | 2 << 8 | 2, // 11
    BYTES << 16 | 2 << 8 | 2, // 12
];

// The item table. A constant array is laid out anew wherever it is named, so who needs it asks for it once and lends it to all that it calls.
#[derive(Clone, Copy)]
pub struct Table {
    pub rows: [u32; 37],
    ghost listed: { rows ≡ item_table },
}

impl Table {
    pub fn new() -> Table {
        Table { rows: ITEMS }
    }
}

// The greatest tag that has a row.
fn most_tag(set: bool) -> u64
    ensures { result ≡ most_tag set }
{
    if set { 12 } else { 23 }
}

// Where the rows of the set or of a pack begin.
fn rows_from(set: bool) -> usize
    ensures { result ≡ rows_from set }
{
    if set { 24 } else { 0 }
}

// The row of a tag that has one, in either table.
fn row_at(rows: &[u32], set: bool, tag: u64) -> u32
    requires { (length rows.now ≡ 37) × (tag ≤ most_tag set) }
    ensures { result ≡ get_or rows.now (rows_from set + tag) 0 }
{
    let at = rows_from(set) + (tag as usize);
    rows[at]
}

// The kind that a row has as a number; no row has a greater one than `LOCATION`, and each greater number means bytes.
pub fn kind_from(n: u32) -> Kind
    ensures { (a b : ℕ) → row_rule (kind_number result) a b ≡ row_rule n a b }
{
    match n {
        UNLISTED => Kind::Unlisted,
        NUMBER => Kind::Number,
        PIXEL => Kind::Pixel,
        LOCATION => Kind::Location,
        _ => Kind::Bytes,
    }
}

// A row taken apart.
fn rule_from(row: u32) -> Rule
    ensures { rule_from result ≡ row_from row }
{
    Rule {
        kind: kind_from(row >> 16),
        least: (row >> 8) % 256,
        most: row % 256,
    }
}

// The rule of a tag, for the set or for a pack.
pub fn rule_of(table: &Table, set: bool, tag: u64) -> Rule
    ensures { rule_from result ≡ rule_of (level_of set) tag }
{
    if most_tag(set) < tag {
        return Rule {
            kind: Kind::Unlisted,
            least: 1,
            most: 0,
        };
    }
    rule_from(row_at(&table.rows, set, tag))
}

// Leading zeros.
pub fn leading(v: &[u8]) -> usize
    ensures { result ≡ zeros v.now }
{
    for (i, b) in v.iter().enumerate() {
        if *b != 0 {
            return i;
        }
    }
    v.len()
}

// Whether a rule allows a length.
fn sized_of(rule: Rule, n: usize) -> bool
    ensures { result ≡ sized (rule_from rule) n }
{
    let least = rule.least as usize;
    let most = rule.most as usize;
    if n < least {
        return false;
    }
    match rule.kind {
        Kind::Unlisted => true,
        Kind::Location => n <= most && (n - least) % 6 == 0,
        _ => n <= most,
    }
}

// 11, 12 of a value.
pub fn valued_of(rule: Rule, v: &[u8]) -> Result<(), Refusal>
    ensures { answered result ≡ valued (rule_from rule) v.now }
{
    if !sized_of(rule, v.len()) {
        return Err(Refusal::LengthNotAllowed);
    }
    match rule.kind {
        Kind::Pixel => {
            if leading(v) == v.len() {
                return Err(Refusal::PixelZero);
            }
            Ok(())
        }
        _ => Ok(()),
    }
}

// A number, or a pixel.
fn is_number(rule: Rule) -> bool
    ensures { result ≡ is_number (rule_from rule).kind }
{
    matches!(rule.kind, Kind::Number | Kind::Pixel)
}

// How many bytes a value has in its shortest form: all, where the first is not 0, whatever the rule.
pub fn short_size(rule: Rule, v: &[u8]) -> usize
    requires { 0 < length v.now }
    ensures { result ≡ length (short (rule_from rule) v.now) }
{
    if v[0] != 0 {
        return v.len();
    }
    if is_number(rule) {
        let z = leading(v);
        if z < v.len() {
            return v.len() - z;
        }
        return 1;
    }
    v.len()
}

// The six offset tags: 10 to 16, but for 12.
fn is_offset(tag: u64) -> bool
    ensures { result ≡ has tag offsets }
{
    if tag < 10 {
        return false;
    }
    if 16 < tag {
        return false;
    }
    tag != 12
}

// Tag 1 only at the very end of a standalone set; the six offset tags only in embedded.
pub fn stands(set: bool, alone: bool, tag: u64, last: bool) -> bool
    ensures { result ≡ may_stand (level_of set) (form_of alone) tag last }
{
    if set {
        if tag == 1 {
            if alone {
                return last;
            }
            return false;
        }
        return true;
    }
    if alone {
        return !is_offset(tag);
    }
    true
}

// What a record of a sheet may name: never the set's checksum or its series.
pub fn nameable_of(set: bool, tag: u64) -> bool
    ensures { result ≡ nameable (level_of set) tag }
{
    if tag == 0 {
        return false;
    }
    if 16383 < tag {
        return false;
    }
    if set {
        if tag == 1 {
            return false;
        }
        return tag != 101;
    }
    true
}

// A standalone set begins with tag 2.
pub fn begins(set: bool, alone: bool, tag: u64, first: bool) -> bool
    ensures { result ≡ (not (is_set (level_of set)) || not (is_alone (form_of alone)) || not first || eqb tag 2) }
{
    if set {
        if alone {
            if first {
                return tag == 2;
            }
            return true;
        }
        return true;
    }
    true
}

// 9, 13, 14 of an item; dup: the tag stands before, first: nothing stands before.
pub fn standing_of(
    set: bool,
    alone: bool,
    dup: bool,
    first: bool,
    tag: u64,
    last: bool,
) -> Result<(), Refusal>
    ensures { (seen : List ℕ) → dup ≡ has tag seen → first ≡ none? seen
        → answered result ≡ standing (level_of set) (form_of alone) seen tag last }
{
    if dup {
        return Err(Refusal::TagRepeated);
    }
    if !stands(set, alone, tag, last) {
        return Err(Refusal::MayNotStand);
    }
    if !begins(set, alone, tag, first) {
        return Err(Refusal::Missing);
    }
    Ok(())
}

pub mod quick; // quick.rt: what is told at a glance
