// The sizes of an item, of a pack and of the series, and their sum.
ghost use Rattle.std.specs.Prelude.{◌≡◌, ◌≤◌};
ghost use Rattle.items.specs.Meet.{level_of};
ghost use Rattle.tally.specs.Meet.{Small, no_sizes, item_sizes, pack_sizes, series_sizes, plus_sizes};

use super::Sizes;

// Of an item with n bytes in its shortest form. The set's checksum has a row alone.
pub fn plain_sizes(set: bool, tag: u64, n: usize) -> Sizes
    requires { (tag ≤ 16383) × (n ≤ 65536) }
    ensures { result ≡ item_sizes (level_of set) tag n }
{
    if set {
        if tag == 1 {
            return Sizes {
                sheet: 0,
                rows: 1,
                normal: 0,
                inner: 0,
            };
        }
    }
    Sizes {
        sheet: 6 + n,
        rows: 1,
        normal: coding::widths::short_total(tag, n),
        inner: 0,
    }
}

// Of a pack whose id takes so many bytes, and of a series, given what they hold.
pub fn pack_sizes(used: usize, a: Sizes) -> Sizes
    requires { (used ≤ 9) × Small a }
    ensures { result ≡ pack_sizes used a }
{
    let body = used + a.normal;
    Sizes {
        sheet: 10 + a.sheet,
        rows: 1 + a.rows,
        normal: coding::widths::len_width(body) + body,
        inner: 0,
    }
}

pub fn series_sizes(a: Sizes) -> Sizes
    requires { Small a }
    ensures { result ≡ series_sizes a }
{
    Sizes {
        sheet: 2 + a.sheet,
        rows: 1 + a.rows,
        normal: 1 + coding::widths::len_width(a.normal) + a.normal,
        inner: a.normal,
    }
}

pub fn plus(a: Sizes, b: Sizes) -> Sizes
    requires { Small a × Small b }
    ensures { result ≡ plus_sizes a b }
{
    Sizes {
        sheet: a.sheet + b.sheet,
        rows: a.rows + b.rows,
        normal: a.normal + b.normal,
        inner: a.inner + b.inner,
    }
}

// No bytes, rows or packs.
pub fn nothing() -> Sizes
    ensures { result ≡ no_sizes }
{
    Sizes {
        sheet: 0,
        rows: 0,
        normal: 0,
        inner: 0,
    }
}
