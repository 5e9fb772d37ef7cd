// What opens and closes a packet that is written: the key, the shortest outer length, and the fresh checksum. An embedded packet has none of them.
#![tactic(auto)]

ghost use Rattle.std.specs.Prelude.{◌≡◌, [], ◌+◌, ◌≤◌, length, take};
ghost use Rattle.std.proofs.lemmas.List.Edits.{sets};
ghost use Rattle.items.specs.Meet.{form_of};
ghost use Rattle.frames.specs.Meet.{frame_size, open_bytes, seal_bytes};

// The bytes of a packet whose entries have n.
#[tactic(auto, using(coding::proofs::Counts::len_most))]
pub fn frame_size(alone: bool, n: usize) -> usize
    requires { n ≤ 1048576 }
    ensures { result ≡ frame_size (form_of alone) n }
{
    if alone {
        return 16 + coding::widths::len_width(n + 4) + n + 4;
    }
    n
}

// What stands before entries of n bytes; where it ends.
#[tactic(auto, using(crate::proofs::Parts::opening))]
pub fn open(out: &mut [u8], alone: bool, n: usize) -> usize
    requires { (n ≤ 1048576) × (length (open_bytes (form_of alone) n) ≤ length out.old) }
    ensures { (result ≡ length (open_bytes (form_of alone) n)) × (out.new ≡ sets out.old 0 (open_bytes (form_of alone) n)) }
{
    if alone {
        let key = coding::key();
        let at = stores::copy(out, 0, &key);
        return store_coded::put_len(out, at, n + 4);
    }
    0
}

// What follows an opened packet with its entries, which end at at; where it ends.
#[tactic(auto, using(crate::proofs::Parts::closing))]
pub fn close(out: &mut [u8], alone: bool, at: usize) -> usize
    requires { (at + length (seal_bytes (form_of alone) []) ≤ length out.old) × (at + length (seal_bytes (form_of alone) []) ≤ 8192) }
    ensures { (result ≡ at + length (seal_bytes (form_of alone) (take at out.old)))
        × (out.new ≡ sets out.old at (seal_bytes (form_of alone) (take at out.old))) }
{
    if alone {
        out[at] = 1;
        out[at + 1] = 2;
        let sum = coding::sum_of(out, at + 2);
        return stores::put_number(out, at + 2, sum, 2);
    }
    at
}
