// A closer look at packs of up to 255 bytes, from where the quick way over a series ended: lengths and ids may have any number of bytes, ids may rise or
// fall, and the items are told as `quick_items::closer` tells them. It does not know whatever else may stand there, nor any refusal: what stops it is
// left to the walk.
ghost use Rattle.std.specs.Prelude.{◌≡◌, ◌≤◌, true, length};
ghost use Rattle.items.specs.Meet.{form_of};
ghost use Rattle.tally.specs.Going.{SeriesTo, New};

use items::quick::Glances;
use tally::stages;
use tally::stages::Stage;

// Whether a pack of so many bytes is worth the look, its id told to be new. What a look at a longer one costs is lost if it does not tell all.
fn is_worth(size: usize, p: usize, top: u64, low: u64, key: u64) -> bool
    ensures { result ≡ true → New p top low key }
{
    size <= 255 && quick_items::is_new(p, top, low, key)
}

// These packs, one after another.
pub fn packs(glances: &Glances, s: &[u8], alone: bool, q: Stage) -> Stage
    requires { (length s.now ≤ 8192) × SeriesTo (form_of alone) s.now q }
    ensures { SeriesTo (form_of alone) s.now result }
{
    let mut p = q.at;
    let mut sum = q.sizes;
    let mut top = q.top;
    let mut low = q.low;
    while p < s.len() {
        let Ok(head) = heads::quick_pack_head(&s[p..]) else {
            break;
        };
        if !is_worth(head.size, p, top, low, head.key) {
            break;
        }
        let from = p + head.width + head.used;
        let next = p + head.width + head.size;
        let told = quick_items::closer::items(glances, &s[from..next], false, alone);
        if told.at != next - from || tally::ended_of(alone, told.held).is_err() {
            break;
        }
        sum = tally::weights::plus(sum, tally::weights::pack_sizes(head.used, told.sizes));
        top = tally::larger(top, head.key);
        low = tally::smaller(low, head.key);
        p = next;
    }
    stages::stage_at(p, sum, 0, top, low)
}
