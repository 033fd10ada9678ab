// Document 01, "Open": samples a secret and an error, makes the query and stores what the reply will need.
ghost use Rattle.std.specs.Prelude.{◌≡◌, false, true, [], ◌∷◌, ◌++◌, ◌+◌, ◌*◌, ◌%◌, ◌^◌, ◌≤◌, ◌<◌, ◌==◌, length, get_or, take, MatchOption, IfOk};
ghost use Rattle.laws.specs.Refusals.{◌⇒◌, first};
ghost use Rattle.laws.specs.Lists.{build, splice, laid};
ghost use Rattle.plain.specs.Matrix.{times};
ghost use Rattle.leaves.specs.Positions.{positions_bad};
ghost use Rattle.leaves.specs.Words.{zeroed};
ghost use Rattle.samples.specs.Sampler.{given};
ghost use Rattle.pending.specs.Table.{malformed, digest_pending, full, slot_of, taken};
ghost use Rattle.queries.specs.Open.{asked, open_shape_bad, place_tests, unread, both_read, either_short, noisy, wraps, marked};
ghost use Rattle.queries.specs.Open.{open_said, open_of, left, open_left};
ghost use Rattle.answers.specs.Refusal.{number_of};
ghost use Rattle.client_answers.specs.Open.{opening_refusal};

use arith::sampler;
pub use client_answers::open::OpeningRefusal;
use leaves::interval::Interval;
use leaves::width::Width;
use leaves::{limits, positions as places, words};
use pending::table::{NUMBERS_END, Slot, Table};
use plain::matrix;
use tickets::slots;

// No Result: the table comes back on a refusal too. `open_said` takes this very struct, so it isn't shared with `replies`.
#[derive(Clone, Copy)]
pub struct Opened {
    pub answer: Result<(u32, usize), OpeningRefusal>,
    pub table: Table,
}

// How many words are lent for each, which is all that 2 asks of them. (A struct of the six slices was made, and proves. It is
// no plainer: clauses name what its fields hold at exit by their places, and `make_query` takes it apart again.)
#[derive(Clone, Copy)]
struct Lengths {
    slab: usize,
    matrix: usize,
    hint: usize,
    secret: usize,
    error: usize,
    query: usize,
}

// An open that 6 alone may still refuse: what was asked for, after its tests, with the slot that it will have and the count of
// words that its samples read.
#[derive(Clone, Copy)]
struct Opening<'a> {
    table: Table,
    slot: Slot,
    n: usize,
    r: usize,
    interval: Interval,
    positions: [u32; 4],
    digest: [u8; 32],
    words: &'a [u32],
    read: usize,
    ghost formed: { malformed table ≡ false },
    ghost lowest: { slot.index ≡ slot_of table 0 },
    ghost n_in: { (1 ≤ n) × (n ≤ 2048) },
    ghost r_in: { (1 ≤ r) × (r ≤ 4096) },
    ghost apart: { positions_bad r positions ≡ false },
    ghost unheld: { digest_pending table digest ≡ false },
    ghost numbered: { table.next < 4294967295 },
    ghost enough: { either_short interval.value n r words.now ≡ false },
    ghost counted: { read ≡ both_read interval.value n r words.now },
}

// 2: each dimension is tested before a product is taken.
#[tactic(auto, using(pending::proofs::table::Formed::few_columns), unfolding(crate::specs::Open::open_shape_bad))]
fn shape_bad(table: &Table, n: usize, r: usize, lent: Lengths) -> bool
    requires { malformed table.now ≡ false }
    ensures { result ≡ open_shape_bad table.now.columns n r lent.slab lent.matrix lent.hint lent.secret lent.error lent.query }
{
    limits::out_of(1, limits::SECRET_MOST, n)
        || limits::out_of(1, limits::ROWS_MOST, r)
        || lent.matrix != n * r
        || lent.hint != n * table.columns
        || table.slab_bad(lent.slab)
        || lent.secret != n
        || lent.error != r
        || lent.query < r
}

// 7, 8, 9: else the lowest free slot.
#[tactic(auto, using(pending::proofs::table::Slots::full_test))]
fn slot_for(table: &Table, digest: [u8; 32]) -> Result<Slot, OpeningRefusal>
    ensures number { number_of opening_refusal result ≡ first (digest_pending table.now digest ⇒ 7 ∷ full table.now ⇒ 8 ∷ (table.now.next == 4294967295) ⇒ 9 ∷ []) }
    ensures slot { IfOk result (λ s. s.index ≡ slot_of table.now 0) }
{
    if table.digest_pending(digest) {
        return Err(OpeningRefusal::Pending);
    }
    let slot = table.find(0).ok_or(OpeningRefusal::Full)?;
    if table.next == NUMBERS_END {
        return Err(OpeningRefusal::Numbers);
    }
    Ok(slot)
}

// The count of words that both samples read, the second from what the first leaves; none, and so 3, where one has too few.
fn words_for_both(interval: Interval, n: usize, r: usize, words: &[u32]) -> Option<usize>
    requires { (n ≤ 4096) × (r ≤ 4096) }
    ensures { MatchOption result (either_short interval.value n r words.now ≡ true) (λ k. (k ≡ both_read interval.value n r words.now) × (either_short interval.value n r words.now ≡ false)) }
{
    let first = sampler::words_to_read(interval.value, n, words).ok()?;
    let second = sampler::words_to_read(interval.value, r, &words[first..]).ok()?;
    Some(first + second)
}

// Every refusal but 6, before anything is written. (What it takes is not known to fit yet, and the whole list goes nowhere
// else.)
fn plan<'a>(
    table: Table,
    n: usize,
    r: usize,
    lent: Lengths,
    interval: u32,
    positions: [u32; 4],
    digest: [u8; 32],
    words: &'a [u32],
) -> Result<Opening<'a>, OpeningRefusal>
    ensures number { number_of opening_refusal result ≡ first (malformed table ⇒ 18 ∷ open_shape_bad table.columns n r lent.slab lent.matrix lent.hint lent.secret lent.error lent.query ⇒ 2 ∷ (place_tests table r interval positions digest ++ (either_short interval n r words.now ⇒ 3 ∷ []))) }
    ensures asked { IfOk result (λ o. (o.table ≡ table) × (o.n ≡ n) × (o.r ≡ r) × (o.interval.value ≡ interval) × (o.positions ≡ positions) × (o.digest ≡ digest) × (o.words.now ≡ words.now)) }
{
    if table.is_malformed() {
        return Err(OpeningRefusal::Table);
    }
    if shape_bad(&table, n, r, lent) {
        return Err(OpeningRefusal::Shape);
    }
    let interval = Interval::new(interval).ok_or(OpeningRefusal::Interval)?;
    if places::positions_bad(r, positions) {
        return Err(OpeningRefusal::Positions);
    }
    let slot = slot_for(&table, digest)?;
    let read = words_for_both(interval, n, r, words).ok_or(OpeningRefusal::Short)?;
    Ok(Opening {
        table,
        slot,
        n,
        r,
        interval,
        positions,
        digest,
        words,
        read,
    })
}

// Adds x times a row to the sums, modulo 2^32. (By places: after a `zip` over `iter_mut` nothing is known of what it wrote.)
fn add_row(x: u32, row: &[u32], sums: &mut [u32])
    requires { length row.now ≡ length sums.old }
    ensures { sums.new ≡ build (length sums.old) (λ j. (get_or sums.old j 0 + x * get_or row.now j 0) % 2 ^ 32) }
{
    for (j, sum) in sums.iter_mut().enumerate() {
        *sum = sum.wrapping_add(x.wrapping_mul(row[j]));
    }
}

// sA + e in the place of e, row after row of A, so that no third work buffer ever holds a secret.
fn add_product(secret: &[u32], matrix: &[u32], error: &mut [u32])
    requires { (1 ≤ length error.old) × (length matrix.now ≡ length secret.now * length error.old) }
    ensures { error.new ≡ noisy (length secret.now) (length error.old) secret.now matrix.now error.old }
{
    for (x, row) in secret.iter().zip(matrix.chunks_exact(error.len())) {
        add_row(*x, row, error);
    }
}

// Of what is lent each method says how long it is: the buffers lie outside, and are written between these calls. 64·C is said
// of the slab, since C lends it and the table apart.
impl Opening<'_> {
    // b, which needs no test here: the table is not malformed. (A reply has the same: as a method of `Table` it would be
    // public and have a `requires`.)
    fn width(&self) -> Width
        ensures { result.bits ≡ self.now.table.b }
    {
        Width { bits: self.table.b }
    }

    // The two samples, the error from what the secret's left unread. There are words enough, so neither is refused.
    fn draw(&self, secret: &mut [u32], error: &mut [u32])
        requires { (length secret.old ≡ self.now.n) × (length error.old ≡ self.now.r) }
        ensures secret_after { secret.new ≡ take self.now.n (given self.now.interval.value self.now.words.now) }
        ensures error_after { error.new ≡ take self.now.r (given self.now.interval.value (unread self.now.interval.value self.now.n self.now.words.now)) }
    {
        let unread = sampler::sample_and_return_unread(self.interval.value, self.words, secret);
        let _ = sampler::sample_from_uniform_ternary_dist(self.interval.value, unread, error);
    }

    // 6: does an entry plus Δ wrap at one of the positions?
    fn wraps_at(&self, query: &[u32]) -> bool
        requires { length query.now ≡ self.now.r }
        ensures { result ≡ wraps self.now.table.b self.now.positions query.now }
    {
        let greatest = u32::MAX - self.width().delta();
        self.positions.iter().any(|p| greatest < query[*p as usize])
    }

    // Adds Δ at the positions, each of which is another and none of which wraps.
    fn mark(&self, query: &mut [u32])
        requires query_len { length query.old ≡ self.now.r }
        requires query_value { wraps self.now.table.b self.now.positions query.old ≡ false }
        ensures { query.new ≡ marked self.now.table.b self.now.positions query.old }
    {
        let delta = self.width().delta();
        for p in self.positions {
            query[p as usize] += delta;
        }
    }

    // s times hint into the words of this slot of the slab. The sizes fit, so the product is not refused. (Where a slot's words
    // lie is said three times, here, by a reply and where a ticket is closed: a function for it would have a `requires`.)
    fn put_secret(&self, secret: &[u32], hint: &[u32], slab: &mut [u32])
        requires { (length secret.now ≡ self.now.n) × (length hint.now ≡ self.now.n * self.now.table.columns) × (length slab.old ≡ 64 * self.now.table.columns) }
        ensures { slab.new ≡ splice (self.now.slot.index * self.now.table.columns) (times 1 self.now.n self.now.table.columns secret.now hint.now) slab.old }
    {
        let columns = self.table.columns;
        let at = self.slot.index * columns;
        let part = &mut slab[at..at + columns];
        let _ = matrix::plain_product(1, self.n, columns, secret, hint, part);
    }

    // The query is in the error's place and marked. Both work buffers end as zeros. (Its slices, and those of `make_query`, are
    // the entry's.)
    #[tactic(auto, using(leaves::proofs::words::Copied::copied_whole))]
    fn store(
        &self,
        slab: &mut [u32],
        hint: &[u32],
        secret: &mut [u32],
        error: &mut [u32],
        query: &mut [u32],
    ) -> Table
        requires { (length slab.old ≡ 64 * self.now.table.columns) × (length hint.now ≡ self.now.n * self.now.table.columns) × (length secret.old ≡ self.now.n) × (length error.old ≤ length query.old) }
        ensures value { result ≡ taken self.now.table self.now.slot.index self.now.digest }
        ensures slab_after { slab.new ≡ splice (self.now.slot.index * self.now.table.columns) (times 1 self.now.n self.now.table.columns secret.old hint.now) slab.old }
        ensures secret_after { secret.new ≡ zeroed secret.old }
        ensures error_after { error.new ≡ zeroed error.old }
        ensures query_after { query.new ≡ laid error.old query.old }
    {
        self.put_secret(secret, hint, slab);
        words::copy(error, query);
        words::zero(secret);
        words::zero(error);
        slots::take(self.table, self.digest)
    }

    // The query, and what its reply will need; or 6. Either way both work buffers end as zeros.
    fn make_query(
        &self,
        slab: &mut [u32],
        matrix: &[u32],
        hint: &[u32],
        secret: &mut [u32],
        error: &mut [u32],
        query: &mut [u32],
    ) -> Opened
        requires { open_shape_bad self.now.table.columns self.now.n self.now.r (length slab.old) (length matrix.now) (length hint.now) (length secret.old) (length error.old) (length query.old) ≡ false }
        ensures result_value { open_said result ≡ open_of (asked self.now.table slab.old self.now.n self.now.r matrix.now hint.now self.now.interval.value self.now.positions self.now.digest self.now.words.now secret.old error.old query.old) }
        ensures query_after { left slab.new secret.new error.new query.new ≡ open_left (asked self.now.table slab.old self.now.n self.now.r matrix.now hint.now self.now.interval.value self.now.positions self.now.digest self.now.words.now secret.old error.old query.old) }
    {
        self.draw(secret, error);
        add_product(secret, matrix, error);
        if self.wraps_at(error) {
            words::zero(secret);
            words::zero(error);
            return Opened {
                answer: Err(OpeningRefusal::Wraps(self.read)),
                table: self.table,
            };
        }
        self.mark(error);
        Opened {
            answer: Ok((self.table.next, self.read)),
            table: self.store(slab, hint, secret, error, query),
        }
    }
}

// Opens a query for the key with these positions and this digest. On success `query` starts with the R words to send, and
// the slab has the secret that the reply will need. The parameters are those of document 01 and of the C interface.
pub fn query_for_4_wise_xor_filter(
    table: Table,
    slab: &mut [u32],
    n: usize,
    r: usize,
    matrix: &[u32],
    hint: &[u32],
    interval: u32,
    positions: [u32; 4],
    digest: [u8; 32],
    words: &[u32],
    secret: &mut [u32],
    error: &mut [u32],
    query: &mut [u32],
) -> Opened
    ensures result_value { open_said result ≡ open_of (asked table slab.old n r matrix.now hint.now interval positions digest words.now secret.old error.old query.old) }
    ensures query_after { left slab.new secret.new error.new query.new ≡ open_left (asked table slab.old n r matrix.now hint.now interval positions digest words.now secret.old error.old query.old) }
{
    let lengths = Lengths {
        slab: slab.len(),
        matrix: matrix.len(),
        hint: hint.len(),
        secret: secret.len(),
        error: error.len(),
        query: query.len(),
    };
    match plan(table, n, r, lengths, interval, positions, digest, words) {
        Ok(opening) => opening.make_query(slab, matrix, hint, secret, error, query),
        Err(reason) => Opened {
            answer: Err(reason),
            table,
        },
    }
}
