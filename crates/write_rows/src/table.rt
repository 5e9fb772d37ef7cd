// Rows as a lent slice of structs, filled from numbers, four to a row.
ghost use Rattle.std.specs.Prelude.{◌≡◌, ◌+◌, ◌*◌, ◌<◌, ◌≤◌, ◌++◌, length, drop};
ghost use Rattle.write_rows.specs.Meet.{row_at, table_of};

#[repr(C)]
#[derive(Clone, Copy)]
pub struct Row {
    pub target: u64,
    pub tag: u64,
    pub offset: u64,
    pub size: u64,
}

// The row whose four numbers are the k-th.
pub fn row_at(numbers: &[u64], k: usize) -> Row
    requires { 4 * k + 3 < length numbers.now }
    ensures { result ≡ row_at numbers.now k }
{
    let at = 4 * k;
    Row {
        target: numbers[at],
        tag: numbers[at + 1],
        offset: numbers[at + 2],
        size: numbers[at + 3],
    }
}

// The first rows, as many as count.
#[tactic(auto, using(crate::proofs::Filling::row_stored), unfolding(crate::specs::Meet::table_of))]
pub fn fill_rows(numbers: &[u64], count: usize, rows: &mut [Row])
    requires { (4 * count ≤ length numbers.now) × (count ≤ length rows.old) }
    ensures { rows.new ≡ table_of count numbers.now ++ drop count rows.old }
{
    for k in 0..count {
        rows[k] = row_at(numbers, k);
    }
}
