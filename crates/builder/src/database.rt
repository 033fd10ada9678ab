// Document 01, "Builder": writes each key's target row, in the order proposed, so that a key's four rows and its masks give
// its row modulo 2^b.
ghost use Rattle.std.specs.Prelude.{◌≡◌, ℕ, ◌+◌, ◌*◌, ◌%◌, ◌^◌, ◌<◌, ◌≤◌, false, length, slice_index};
ghost use Rattle.laws.specs.Lists.{build, splice};
ghost use Rattle.builder.specs.Keys.{target};
ghost use Rattle.builder.specs.Placement.{placement_bad};
ghost use Rattle.builder.specs.Database.{less, others_sum, target_row, database, keys_bad};
ghost use Rattle.builder.specs.Database.{proposed, build_number, build_after};
ghost use Rattle.builder.specs.Lent.{keys_in};
ghost use Rattle.answers.specs.Database.{building_number};

use super::keys::LentKeys;
use super::placement;
pub use answers::database::BuildingRefusal;
use leaves::width::Width;
use leaves::{limits, words};

// 2: each dimension is tested before a product is taken. It is asked before there can be a `LentKeys`. (The clause is for every
// b: `proposed` has one, and this test reads none.)
#[tactic(auto, unfolding(crate::specs::Database::keys_bad))]
fn keys_bad(
    r: usize,
    columns: usize,
    count: usize,
    rows: &[u32],
    masks: &[u32],
    positions: &[u32],
    targets: &[u32],
    database: &[u32],
) -> bool
    ensures { (b : ℕ) → result ≡ keys_bad (proposed b r columns count rows.now masks.now positions.now targets.now database.now) }
{
    limits::out_of(1, limits::ROWS_MOST, r)
        || limits::out_of(1, limits::COLUMNS_MOST, columns)
        || r < count
        || rows.len() != count * columns
        || masks.len() != count * columns
        || positions.len() != count * 4
        || targets.len() != count
        || database.len() < r * columns
}

// Column j of the rows at the positions but the target, summed and wrapped. (The target is known by its place among the four.
// Positions and index are no struct: they come from two lent lists, and `key_bad` has them before the index is known to be
// good.)
fn others_sum(columns: usize, ps: [u32; 4], index: u32, j: usize, words: &[u32]) -> u32
    requires j_lt_columns { j < columns }
    requires by_index { (s : ℕ) → s < 4 → slice_index ps s * columns + columns ≤ length words.now }
    ensures { result ≡ others_sum columns words.now ps index j % 2 ^ 32 }
{
    let mut sum: u32 = 0;
    for (s, p) in ps.iter().enumerate() {
        if s != index as usize {
            sum = sum.wrapping_add(words[*p as usize * columns + j]);
        }
    }
    sum
}

// The other rows, summed column by column and wrapped. (Two lines, as in plain's `column`.)
fn rest(columns: usize, ps: [u32; 4], index: u32, words: &[u32], sums: &mut [u32])
    requires sums_len { length sums.old ≡ columns }
    requires by_index { (s : ℕ) → s < 4 → slice_index ps s * columns + columns ≤ length words.now }
    ensures { sums.new ≡ build columns (λ j. others_sum columns words.now ps index j % 2 ^ 32) }
{
    for (j, sum) in sums.iter_mut().enumerate() {
        *sum = others_sum(columns, ps, index, j, words);
    }
}

// a less c, modulo 2^b. The sum may wrap: 2^b divides 2^32.
fn subtract(width: Width, a: u32, c: u32) -> u32
    ensures { result ≡ less width.bits a c }
{
    let m = width.modulus();
    a.wrapping_add(m - c % m) % m
}

// Writes the target row: its row less the other rows' sums less the masks. (By places: four lists are read or written at one.)
fn subtract_row(width: Width, row: &[u32], sums: &[u32], masks: &[u32], target: &mut [u32])
    requires { (length row.now ≡ length target.old) × (length sums.now ≡ length target.old) × (length masks.now ≡ length target.old) }
    ensures { target.new ≡ build (length target.old) (λ j. less width.bits (less width.bits (slice_index row.now j) (slice_index sums.now j)) (slice_index masks.now j)) }
{
    for (j, x) in target.iter_mut().enumerate() {
        let less = subtract(width, row[j], sums[j]);
        *x = subtract(width, less, masks[j]);
    }
}

// Writes key i's target row into its place inside the database. What `sums` held does not count. (How long the database is
// stands here and in `place_keys`: it is lent to be written, and `LentKeys` is copied.)
fn place_key(width: Width, keys: LentKeys<'_>, i: usize, sums: &mut [u32], words: &mut [u32])
    requires i_lt_count { i < keys.count }
    requires rule { placement_bad keys.r (keys_in keys) keys.count ≡ false }
    requires words_len { (length sums.old ≡ keys.columns) × (length words.old ≡ keys.r * keys.columns) }
    ensures { words.new ≡ splice (target (keys_in keys.entry) i * keys.entry.columns) (target_row width.bits keys.entry.columns (keys_in keys.entry) words.old i) words.old }
{
    let ps = keys.places(i);
    let index = keys.targets[i];
    rest(keys.columns, ps, index, words, sums);
    let from = i * keys.columns;
    let to = from + keys.columns;
    let start = ps[index as usize] as usize * keys.columns;
    let end = start + keys.columns;
    subtract_row(
        width,
        &keys.rows[from..to],
        sums,
        &keys.masks[from..to],
        &mut words[start..end],
    );
}

// The whole database: all zero, whatever the lent words held, and then key after key, in the order proposed. (By index: C lends
// the keys as flat lists.)
#[tactic(auto, unfolding(crate::specs::Database::database))]
fn place_keys(width: Width, keys: LentKeys<'_>, words: &mut [u32])
    requires rule { placement_bad keys.r (keys_in keys) keys.count ≡ false }
    requires words_len { length words.old ≡ keys.r * keys.columns }
    ensures { words.new ≡ database width.bits keys.entry.r keys.entry.columns (keys_in keys.entry) keys.entry.count }
{
    words::zero(words);
    // The library has no heap: this is of the largest size.
    let mut sums = [0u32; limits::COLUMNS_MOST];
    for i in 0..keys.count {
        place_key(width, keys, i, &mut sums[..keys.columns], words);
    }
}

// Builds a database of r rows of `columns` elements from `count` keys, lent flat, key after key, in their writing order.
// A key has four positions, and its target is an index of them, 0 to 3. The parameters are the C interface's.
#[tactic(auto, unfolding(crate::specs::Database::build_number))]
pub fn build_database(
    b: u32,
    r: usize,
    columns: usize,
    count: usize,
    rows: &[u32],
    masks: &[u32],
    positions: &[u32],
    targets: &[u32],
    database: &mut [u32],
) -> Result<(), BuildingRefusal>
    ensures number { building_number result ≡ build_number (proposed b r columns count rows.now masks.now positions.now targets.now database.old) }
    ensures database_after { database.new ≡ build_after (proposed b r columns count rows.now masks.now positions.now targets.now database.old) }
{
    let width = Width::new(b).ok_or(BuildingRefusal::Width)?;
    if keys_bad(r, columns, count, rows, masks, positions, targets, database) {
        return Err(BuildingRefusal::Shape);
    }
    let keys = LentKeys {
        r,
        columns,
        count,
        rows,
        masks,
        positions,
        targets,
    };
    if limits::any_above(width.greatest(), rows) {
        return Err(BuildingRefusal::Element);
    }
    if placement::placement_bad(keys) {
        return Err(BuildingRefusal::Placement);
    }
    place_keys(width, keys, &mut database[..r * columns]);
    Ok(())
}
