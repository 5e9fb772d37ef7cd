// The set's bytes with a target added or dropped: how many, and these, stored into a lent output.
#![tactic(auto)]

ghost use Rattle.std.specs.Prelude.{◌≡◌, ℕ, ◌+◌, ◌≤◌, ◌<◌, length};
ghost use Rattle.format.specs.Table.{Form};
ghost use Rattle.find.specs.Series.{InOrder};
ghost use Rattle.edit_rules.specs.Cuts.{StoredAt};
ghost use Rattle.write_packet.specs.Meet.{targets_normal};
ghost use Rattle.target_bytes.specs.Meet.{count_item, counted, packs_size, series_size, series_put, entries_put, six_size, entries_size, PuttingIn};

use edit_bytes::put_part;
use find::around::Series;

// ---- how many

// Of tag 6's item, saying so many targets.
fn count_size(count: usize) -> usize
    requires { count ≤ 65535 }
    ensures { result ≡ length (count_item count) }
{
    if count < 256 { 3 } else { 4 }
}

// The same where it stands, else none.
fn six_size(series: Series, count: usize) -> usize
    requires { count ≤ 65535 }
    ensures { result ≡ six_size series count }
{
    if series.six < series.stop {
        return count_size(count);
    }
    0
}

// Of the packs, without the one that is taken out, and with so many bytes of a new one.
pub fn packs_size(series: Series, added: usize) -> usize
    requires { InOrder 8192 series × (added ≤ 8192) }
    ensures { result ≡ packs_size series added }
{
    (series.pack - series.packs) + (series.tail - series.last) + added
}

// Of the series with so many bytes of packs: where there are none, there is no series.
fn series_size(inner: usize) -> usize
    requires { inner ≤ 65536 }
    ensures { result ≡ series_size inner }
{
    if inner == 0 {
        return 0;
    }
    1 + coding::widths::len_width(inner) + inner
}

// Of the entries, with so many bytes of packs, and a count for tag 6.
pub fn entries_size(series: Series, count: usize, inner: usize) -> usize
    requires { InOrder 8192 series × (count ≤ 65535) × (inner ≤ 65536) }
    ensures { result ≡ entries_size series count inner }
{
    (series.stop - (series.tail - series.at)) - (series.after - series.six)
        + series_size(inner)
        + six_size(series, count)
}

// ---- these

// Tag 6's item, its tag, length and value as one number; where it ends.
fn put_count(out: &mut [u8], at: usize, count: usize) -> usize
    requires { (count ≤ 65535) × (at + length (count_item count) ≤ length out.old) }
    ensures { StoredAt out.old at (count_item count) result out.new }
{
    if count < 256 {
        return stores::put_number(out, at, 0x60100 + count as u64, 3);
    }
    stores::put_number(out, at, 0x6020000 + count as u64, 4)
}

// The bytes of s from one place to another, with tag 6's item, if it stands there, saying the count; where they end.
fn put_counted(
    out: &mut [u8],
    at: usize,
    s: &[u8],
    series: Series,
    count: usize,
    from: usize,
    to: usize,
) -> usize
    requires { InOrder (length s.now) series × (count ≤ 65535) × (from ≤ to) × (to ≤ length s.now)
        × (series.six < to → series.after ≤ to) × (at + length (counted s.now series count from to) ≤ length out.old) }
    ensures { StoredAt out.old at (counted s.now series count from to) result out.new }
{
    let six = series.six;
    if six < from {
        return put_part(out, at, s, from, to);
    }
    if to <= six {
        return put_part(out, at, s, from, to);
    }
    let item = put_part(out, at, s, from, six);
    let rest = put_count(out, item, count);
    put_part(out, rest, s, series.after, to)
}

// The series, with so many bytes of packs, those of the records last; where it ends.
fn put_series(
    out: &mut [u8],
    at: usize,
    s: &[u8],
    series: Series,
    inner: usize,
    records: &[u8],
) -> usize
    requires { (f : Form) × (n : ℕ) × PuttingIn f s.now series n inner records.now
        × (at + length (series_put s.now series (targets_normal f records.now)) ≤ length out.old) }
    ensures { (f : Form) (n : ℕ) → PuttingIn f s.now series n inner records.now
        → StoredAt out.old at (series_put s.now series (targets_normal f records.now)) result out.new }
{
    if inner == 0 {
        return at;
    }
    let packs = store_coded::put_series(out, at, inner);
    let later = put_part(out, packs, s, series.packs, series.pack);
    let new = put_part(out, later, s, series.last, series.tail);
    // a drop has none
    if records.len() == 0 {
        return new;
    }
    let pack = write_packet::target_packet(records, &mut out[new..]);
    new + pack.wrote
}

// The entries, with so many bytes of packs, those of the records last, and a count for tag 6, at the start of out; how many bytes.
pub fn put_entries(
    s: &[u8],
    series: Series,
    count: usize,
    inner: usize,
    records: &[u8],
    out: &mut [u8],
) -> usize
    requires { (f : Form) × PuttingIn f s.now series count inner records.now
        × (length (entries_put s.now series count (targets_normal f records.now)) ≤ length out.old) }
    ensures { (f : Form) → PuttingIn f s.now series count inner records.now
        → StoredAt out.old 0 (entries_put s.now series count (targets_normal f records.now)) result out.new }
{
    let packs = put_counted(out, 0, s, series, count, 0, series.at);
    let rest = put_series(out, packs, s, series, inner, records);
    put_counted(out, rest, s, series, count, series.tail, series.stop)
}
