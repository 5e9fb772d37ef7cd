// Keys that are noted: a bit for each of the first keys, in words of 64, for as many as are lent. Of a key beyond these it is not known whether it
// stood before.
ghost use Rattle.std.specs.Prelude.{◌≡◌, ◌/◌, ◌<◌, true, false, length};
ghost use Rattle.repeats.specs.Notes.{noted, Noting};

pub fn is_noted(bits: &[u64], key: u64) -> bool
    requires { key / 64 < length bits.now }
    ensures { result ≡ noted bits.now key }
{
    let i = (key / 64) as usize;
    (bits[i] >> key % 64) % 2 == 1
}

// Whether a key has a bit, and is not noted. No says nothing of a key that has no bit.
pub fn is_unnoted(bits: &[u64], key: u64) -> bool
    ensures { result ≡ true → (key / 64 < length bits.now) × (noted bits.now key ≡ false) }
{
    let i = (key / 64) as usize;
    if bits.len() <= i {
        return false;
    }
    !is_noted(bits, key)
}

// Notes a key, if it has a bit. Where none are lent, one test says so.
pub fn note(bits: &mut [u64], key: u64)
    ensures { Noting bits.old bits.new key }
{
    if bits.len() == 0 {
        return;
    }
    let i = (key / 64) as usize;
    if bits.len() <= i {
        return;
    }
    let w = bits[i];
    bits[i] = w | 1 << key % 64;
}
