// What heads an item, a pack or a record.
#![tactic(auto)]

ghost use Rattle.std.specs.Prelude.{◌≡◌, ◌&&◌, ◌||◌, not, eqb};
ghost use Rattle.format.specs.Table.{is_set};
ghost use Rattle.format.specs.Read.{head_of, pack_head};
ghost use Rattle.items.specs.Meet.{level_of};
ghost use Rattle.heads.specs.Meet.{item_head_of, pack_head_of, ItemHeadIf, LevelHeadIf, PackHeadIf, peek_by, Peeked};

use coding::refusals::Refusal;

pub mod records; // records.rt: what heads the records of a sheet

// What heads an item or a pack: its key, how many bytes the key and the length take, and the length.
#[derive(Clone, Copy, Debug, PartialEq, Eq)]
pub struct Head {
    pub key: u64,
    pub used: usize,
    pub width: usize,
    pub size: usize,
}

// Whether this is the set's tag 1 with its length not in one byte.
fn long_seal(set: bool, tag: u64, width: usize) -> bool
    ensures { result ≡ not (not (is_set (level_of set) && eqb tag 1) || eqb width 1) }
{
    set && tag == 1 && width != 1
}

// The tag and the length at the start of s, with room for the value: 3, 4, 3, 5, 6.
#[tactic(auto, using(crate::proofs::Heads::item_heads))]
pub fn item_head(s: &[u8], set: bool) -> Result<Head, Refusal>
    ensures { item_head_of result ≡ head_of (level_of set) s.now }
{
    let tag = coding::tag_of(s)?;
    let length = coding::len_of(&s[tag.used..])?;
    if long_seal(set, tag.value, length.used) {
        return Err(Refusal::BadLength);
    }
    let from = tag.used + length.used;
    let size = length.value as usize;
    if s.len() - from < size {
        return Err(Refusal::PastEnd);
    }
    Ok(Head {
        key: tag.value,
        used: tag.used,
        width: length.used,
        size,
    })
}

// The same for a tag and a length in one byte each, as most are. It knows neither longer ones nor any refusal: `None` says nothing.
#[tactic(auto, using(crate::proofs::Heads::item_head_short))]
fn short_item_head(s: &[u8]) -> Option<Head>
    ensures { ItemHeadIf result s.now }
{
    if s.len() < 2 {
        return None;
    }
    let key = coding::wide(s[0]);
    let size = coding::wide(s[1]) as usize;
    if key == 0 || 127 < key || 127 < size || s.len() - 2 < size {
        return None;
    }
    Some(Head {
        key,
        used: 1,
        width: 1,
        size,
    })
}

// The same as `item_head`, the quick way first: for who reads item after item. What `short_item_head` does not know, `item_head` tells.
pub fn quick_item_head(s: &[u8], set: bool) -> Result<Head, Refusal>
    ensures { item_head_of result ≡ head_of (level_of set) s.now }
{
    match short_item_head(s) {
        Some(head) => Ok(head),
        None => item_head(s, set),
    }
}

// A closer look, at a tag in one byte and a length in one or two: in place of `item_head` where item after item is read so. It knows neither longer
// ones nor any refusal: `None` says nothing.
#[tactic(auto, using(crate::proofs::Heads::closer_room, crate::proofs::Heads::closer_whole))]
pub fn closer_item_head(s: &[u8], set: bool) -> Option<Head>
    ensures { LevelHeadIf (level_of set) result s.now }
{
    if s.len() < 3 {
        return None;
    }
    let key = coding::wide(s[0]);
    if key == 0 || 127 < key {
        return None;
    }
    let length = coding::closer_len(&s[1..])?;
    if long_seal(set, key, length.used) {
        return None;
    }
    let at = 1 + length.used;
    let size = length.value as usize;
    if s.len() - at < size {
        return None;
    }
    Some(Head {
        key,
        used: 1,
        width: length.used,
        size,
    })
}

// The length and the id at the start of s, with room for the pack: 3, 5, 6, 3, 8.
#[tactic(auto, using(crate::proofs::Heads::pack_heads))]
pub fn pack_head(s: &[u8]) -> Result<Head, Refusal>
    ensures { pack_head_of result ≡ pack_head s.now }
{
    let length = coding::len_of(s)?;
    let size = length.value as usize;
    if s.len() - length.used < size {
        return Err(Refusal::PastEnd);
    }
    let id = coding::id_of(&s[length.used..length.used + size])?;
    Ok(Head {
        key: id.value,
        used: id.used,
        width: length.used,
        size,
    })
}

// The same for a length in one byte and an id in one or two, as most are. It knows neither longer ones nor any refusal: `None` says nothing.
#[tactic(auto, using(crate::proofs::Heads::pack_head_one))]
pub fn short_pack_head(s: &[u8]) -> Option<Head>
    ensures { PackHeadIf result s.now }
{
    if s.len() < 3 {
        return None;
    }
    let size = coding::wide(s[0]) as usize;
    if 127 < size || s.len() - 1 < size || size == 0 {
        return None;
    }
    let a = coding::wide(s[1]);
    if a < 128 {
        return Some(Head {
            key: a,
            used: 1,
            width: 1,
            size,
        });
    }
    let b = coding::wide(s[2]);
    if 127 < b || a == 128 || size == 1 {
        return None;
    }
    Some(Head {
        key: coding::two7(a, b),
        used: 2,
        width: 1,
        size,
    })
}

// The same as `pack_head`, the quick way first: for who reads pack after pack. What `short_pack_head` does not know, `pack_head` tells.
pub fn quick_pack_head(s: &[u8]) -> Result<Head, Refusal>
    ensures { pack_head_of result ≡ pack_head s.now }
{
    match short_pack_head(s) {
        Some(head) => Ok(head),
        None => pack_head(s),
    }
}

// ---- for a look back

// A key and the bytes of all that it heads.
#[derive(Clone, Copy, Debug, PartialEq, Eq)]
pub struct Next {
    pub key: u64,
    pub used: usize,
}

// What a look is for: packs and targets are told by their ids, items and records by their tags.
#[derive(Clone, Copy, Debug, PartialEq, Eq)]
pub enum Look {
    // the packs of a series
    Packs,
    // the items of the set, or of a pack
    Items { set: bool },
    // the targets of a sheet
    Targets,
    // the records of the set, the series under 101, or of a target
    Records { set: bool },
}

impl Look {
    // What is next, if such a thing stands there. In line, so that a loop over one look makes no jump by a table at each head.
    #[tactic(auto, unfolding(crate::specs::Meet::peek))]
    #[inline(always)]
    pub fn next(self, s: &[u8]) -> Option<Next>
        ensures { Peeked (peek_by self) s.now result }
    {
        match self {
            Look::Packs => pack_next(s),
            Look::Items { set } => item_next(s, set),
            Look::Targets => records::record_next(s, true, false),
            Look::Records { set } => records::record_next(s, false, set),
        }
    }
}

#[tactic(auto, using(crate::proofs::Heads::pack_within, crate::proofs::Heads::pack_some), unfolding(crate::specs::Meet::peek))]
fn pack_next(s: &[u8]) -> Option<Next>
    ensures { Peeked (peek_by Look.Packs) s.now result }
{
    match pack_head(s) {
        Ok(head) => Some(Next {
            key: head.key,
            used: head.width + head.size,
        }),
        Err(_) => None,
    }
}

#[tactic(auto, using(crate::proofs::Heads::item_within, crate::proofs::Heads::item_some), unfolding(crate::specs::Meet::peek))]
fn item_next(s: &[u8], set: bool) -> Option<Next>
    ensures { Peeked (peek_by (Look.Items set)) s.now result }
{
    match item_head(s, set) {
        Ok(head) => Some(Next {
            key: head.key,
            used: head.used + head.width + head.size,
        }),
        Err(_) => None,
    }
}
