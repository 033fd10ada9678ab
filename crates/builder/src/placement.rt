// Document 01, "Builder": the placement check, 15's rule, in time linear in the keys.
ghost use Rattle.std.specs.Prelude.{◌≡◌, ℕ, ◌<◌, ◌≤◌, false, ◌||◌, length, nat_le, slice_index, slice_index_or};
ghost use Rattle.leaves.specs.Positions.{among, positions_bad};
ghost use Rattle.builder.specs.Placement.{placement_bad};
ghost use Rattle.builder.specs.Lent.{keys_in};

use super::keys::LentKeys;
use leaves::{limits, positions};

// The rule for one key, where a mark is set at each position of a key written before it.
#[tactic(auto, using(leaves::proofs::positions::Distinct::below))]
fn key_bad(r: usize, ps: [u32; 4], index: u32, marks: &[bool]) -> bool
    requires { r ≤ length marks.now }
    ensures { result ≡ (positions_bad r ps || nat_le (length ps) index || slice_index_or marks.now (slice_index ps index) false) }
{
    positions::positions_bad(r, ps) || 4 <= index || marks[ps[index as usize] as usize]
}

// Sets a mark at each of the positions.
fn mark(ps: [u32; 4], marks: &mut [bool])
    requires { (s : ℕ) → s < 4 → slice_index ps s < length marks.old }
    ensures { (q : ℕ) → slice_index_or marks.new q false ≡ (slice_index_or marks.old q false || among ps q) }
{
    for p in ps {
        marks[p as usize] = true;
    }
}

// 15: is the rule broken by one of the keys, in the order proposed? (By index: C lends the keys as flat lists.)
pub(crate) fn placement_bad(keys: LentKeys<'_>) -> bool
    ensures { result ≡ placement_bad keys.entry.r (keys_in keys.entry) keys.entry.count }
{
    // The library has no heap: this is of the largest size.
    let mut marks = [false; limits::ROWS_MOST];
    for (i, index) in keys.targets.iter().enumerate() {
        let ps = keys.places(i);
        if key_bad(keys.r, ps, *index, &marks) {
            return true;
        }
        mark(ps, &mut marks);
    }
    false
}
