// How many bytes a length, a tag or an id, and an item take: what a writer asks before it stores them.
ghost use Rattle.std.specs.Prelude.{◌≡◌, ◌+◌, ◌/◌, ◌^◌, ◌<◌, ◌≤◌, length};
ghost use Rattle.format.specs.Coding.{len_width, oid_bytes};

// The bytes of the shortest length n.
pub fn len_width(n: usize) -> usize
    ensures { result ≡ len_width n }
{
    if n < 128 {
        return 1;
    }
    if n < 256 {
        return 2;
    }
    if n < 65536 {
        return 3;
    }
    if n < 16777216 {
        return 4;
    }
    5
}

// All but the seven low bits.
pub fn above7(n: u64) -> u64
    ensures { result ≡ n / 128 }
{
    n >> 7
}

// The bytes of the tag or id n. Most have one or two, and make no turn.
pub fn oid_width(n: u64) -> usize
    requires { n < 2 ^ 63 }
    ensures { (result ≡ length (oid_bytes n)) × (result ≤ 9) }
{
    if n < 128 {
        return 1;
    }
    if n < 16384 {
        return 2;
    }
    let mut k: usize = 1;
    let mut m = n;
    while 128 <= m {
        m = above7(m);
        k += 1;
    }
    k
}

// The bytes of an item whose value has n, under its shortest length.
pub fn short_total(tag: u64, n: usize) -> usize
    requires { (tag ≤ 16383) × (n ≤ 65536) }
    ensures { result ≡ length (oid_bytes tag) + (len_width n + n) }
{
    oid_width(tag) + len_width(n) + n
}
