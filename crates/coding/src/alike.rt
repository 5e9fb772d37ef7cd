// Whether bytes are laid out as others are, as most packs of a series: the same heads at the same places. 32 at a time, with no way out of that
// loop, so that the compiler compares them at once.
ghost use Rattle.std.specs.Prelude.{◌≡◌, ◌+◌, ◌-◌, ◌<◌, ◌≤◌, true, length};
ghost use Rattle.coding.specs.Alike.{Alike, AlikeTo, LastAlike, ItemMasked};

fn is_alike(mask: u8, a: u8, b: u8) -> bool
    ensures { result ≡ true → Alike mask a b }
{
    super::either(
        a == b,
        super::both(mask < 2, super::either(mask == 0, b != 0)),
    )
}

// The first 32.
fn some_alike(masks: &[u8], a: &[u8], b: &[u8]) -> bool
    requires { (32 ≤ length masks.now) × (32 ≤ length a.now) × (32 ≤ length b.now) }
    ensures { result ≡ true → AlikeTo masks.now a.now b.now 32 }
{
    let mut alike = true;
    for i in 0..32 {
        alike = super::both(alike, is_alike(masks[i], a[i], b[i]));
    }
    alike
}

// The last 32 of the first n, if there are so many.
fn are_last_alike(masks: &[u8], a: &[u8], b: &[u8], n: usize) -> bool
    requires { (n ≤ length masks.now) × (length b.now ≤ length a.now) }
    ensures { result ≡ true → LastAlike masks.now a.now b.now n }
{
    if n < 32 {
        return false;
    }
    if b.len() < n {
        return false;
    }
    let at = n - 32;
    some_alike(&masks[at..], &a[at..], &b[at..])
}

// The first n of b beside those of a, as the masks ask. Where fewer than 32 bytes are left, the last 32 are compared, some of them again; where
// there never were so many, the answer is no.
pub fn are_alike(masks: &[u8], a: &[u8], b: &[u8], n: usize) -> bool
    requires { (n + 31 ≤ length masks.now) × (length b.now ≤ length a.now) }
    ensures { result ≡ true → AlikeTo masks.now a.now b.now n × (n ≤ length b.now) }
{
    let mut i: usize = 0;
    while i < n {
        if b.len() - i < 32 {
            return are_last_alike(masks, a, b, n);
        }
        if !some_alike(&masks[i..], &a[i..], &b[i..]) {
            return false;
        }
        i += 32;
    }
    true
}

// Masks an item whose head has k bytes at p: those the same, and what its value may begin with.
pub fn mask_item(masks: &mut [u8; 160], p: usize, k: usize, first: u8)
    requires { (p + k < 160) × (length masks.old ≡ 160) }
    ensures { ItemMasked masks.old masks.new p k first }
{
    for i in 0..k {
        masks[p + i] = 2;
    }
    masks[p + k] = first;
}
