// Document 01, "Reply": a response to a pending ticket gives the stored value, or a numbered refusal.
ghost use Rattle.std.specs.Prelude.{◌≡◌, ◌<◌, ◌≤◌, true, false, not, [], ◌∷◌, length, ◌==◌, IfOk, MatchOption};
ghost use Rattle.laws.specs.Refusals.{◌⇒◌, first, after};
ghost use Rattle.laws.specs.Lists.{row, laid};
ghost use Rattle.rows.specs.Codec.{value_room_of, value_length, value_of};
ghost use Rattle.answers.specs.Codec.{decoding_refusal};
ghost use Rattle.pending.specs.Table.{used, malformed, pending, slot_of};
ghost use Rattle.replies.specs.Reply.{received, lent_bad, recovered, row_number_of, reply_number, closing};
ghost use Rattle.answers.specs.Refusal.{number_of};
ghost use Rattle.client_answers.specs.Reply.{replying_refusal, replying_number, replying_length};
ghost use Rattle.replies.specs.Reply.{reply_length, reply_said, reply_of, reply_slab, reply_value};

use arith::codec;
use arith::codec::DecodingRefusal;
pub use client_answers::reply::ReplyingRefusal;
use leaves::width::Width;
use leaves::{limits, rounding, words};
use pending::table::{Slot, Table};
use tickets::slots;

// The longest value of all: C 512 and b 14.
const VALUE_MOST: usize = limits::COLUMNS_MOST * limits::WIDTH_MOST / 8 - codec::BESIDE_VALUE;

// No Result: the table comes back on a refusal too. `reply_said` takes this very struct, so it isn't shared with `queries`.
#[derive(Clone, Copy)]
pub struct Replied {
    pub answer: Result<usize, ReplyingRefusal>,
    pub table: Table,
}

// A pending ticket of a table that is not malformed, with its secret, and the response and masks that came for it.
#[derive(Clone, Copy)]
struct Waiting<'a> {
    table: Table,
    slot: Slot,
    secret: &'a [u32],
    response: &'a [u32],
    masks: &'a [u32],
    ghost formed: { malformed table ≡ false },
    ghost taken: { used table slot.index ≡ true },
    ghost secret_whole: { length secret.now ≡ table.columns },
    ghost response_whole: { length response.now ≡ table.columns },
    ghost masks_whole: { length masks.now ≡ table.columns },
}

// 2: the slab, the masks or the value buffer.
#[tactic(auto, using(crate::proofs::reply::Reading::room_in), unfolding(crate::specs::Reply::lent_bad))]
fn lent_bad(table: &Table, slab: usize, masks: usize, value: usize) -> bool
    requires { malformed table.now ≡ false }
    ensures { result ≡ lent_bad table.now slab masks value }
{
    table.slab_bad(slab)
        || masks != table.columns
        || value < codec::value_room(table.b, table.columns)
}

// What the row reader refuses, as a reply's reason. Its 1 and 2 can't come up, and a `From` would have to give a reason for
// them too.
fn refused(reason: DecodingRefusal) -> ReplyingRefusal
    requires { 2 < decoding_refusal reason }
    ensures { replying_refusal result ≡ decoding_refusal reason }
{
    match reason {
        DecodingRefusal::Marker => ReplyingRefusal::Marker,
        _ => ReplyingRefusal::Element,
    }
}

impl<'a> Waiting<'a> {
    // 18, 2, 10, 12: the refusals that need no row. (The entry's own parameters: none is known to fit yet.)
    #[tactic(auto, using(crate::proofs::reply::Answers::fits, pending::proofs::table::Formed::few_columns))]
    fn new(
        table: Table,
        slab: &'a [u32],
        ticket: u32,
        response: &'a [u32],
        masks: &'a [u32],
        value: usize,
    ) -> Result<Waiting<'a>, ReplyingRefusal>
        ensures number { number_of replying_refusal result ≡ first (malformed table ⇒ 18 ∷ lent_bad table (length slab.now) (length masks.now) value ⇒ 2 ∷ not (pending table ticket) ⇒ 10 ∷ not (length response.now == table.columns) ⇒ 12 ∷ []) }
        ensures fields { IfOk result (λ w. (w.table ≡ table) × (w.slot.index ≡ slot_of table ticket) × (w.secret.now ≡ row table.columns slab.now (slot_of table ticket)) × (w.response.now ≡ response.now) × (w.masks.now ≡ masks.now)) }
    {
        if table.is_malformed() {
            return Err(ReplyingRefusal::Table);
        }
        if lent_bad(&table, slab.len(), masks.len(), value) {
            return Err(ReplyingRefusal::Shape);
        }
        let slot = table
            .pending_slot(ticket)
            .ok_or(ReplyingRefusal::NotPending)?;
        if response.len() != table.columns {
            return Err(ReplyingRefusal::Length);
        }
        // (Where a slot's words lie, as in queries' `put_secret`.)
        let from = slot.index * table.columns;
        let secret = &slab[from..from + table.columns];
        Ok(Waiting {
            table,
            slot,
            secret,
            response,
            masks,
        })
    }

    // b, which needs no test here: the table is not malformed. (An open has the same: as a method of `Table` it would be
    // public and have a `requires`.)
    fn width(&self) -> Width
        ensures { result.bits ≡ self.now.table.b }
    {
        Width { bits: self.table.b }
    }

    // The row that the response gives with the secret. (By places: four lists are read or written at one.)
    fn recover(&self, row: &mut [u32])
        requires { length row.old ≡ self.now.table.columns }
        ensures { row.new ≡ recovered self.now.table.b self.now.secret.now self.now.response.now self.now.masks.now }
    {
        let modulus = self.width().modulus();
        for (j, x) in row.iter_mut().enumerate() {
            let u = self.response[j].wrapping_sub(self.secret[j]);
            *x = (rounding::rounded(self.table.b, u) + self.masks[j] % modulus) % modulus;
        }
    }

    // 17, 13, 14: else the value. It is read aside first, so that a row of another digest leaves `value` untouched.
    fn read_row(&self, row: &[u32], value: &mut [u8]) -> Result<usize, ReplyingRefusal>
        requires { (length row.now ≡ self.now.table.columns) × (value_room_of self.now.table.b self.now.table.columns ≤ length value.old) }
        ensures number { replying_number result ≡ row_number_of self.now.table self.now.slot.index row.now }
        ensures length { replying_length result ≡ after (replying_number result) (value_length self.now.table.b self.now.table.columns row.now) 0 }
        ensures value_after { value.new ≡ after (replying_number result) (laid (value_of self.now.table.b self.now.table.columns row.now) value.old) value.old }
    {
        // The library has no heap: these are of the largest sizes.
        let mut digest = [0u8; 32];
        let mut found = [0u8; VALUE_MOST];
        let n = codec::decode_kv_from_row(
            self.table.b,
            self.table.columns,
            row,
            &mut digest,
            &mut found,
        )
        .map_err(refused)?;
        if self.table.differs_at(self.slot.index, digest) {
            return Err(ReplyingRefusal::Digest);
        }
        words::copy(&found[..n], value);
        Ok(n)
    }

    // The value for the response.
    fn answer(&self, value: &mut [u8]) -> Result<usize, ReplyingRefusal>
        requires { value_room_of self.now.table.b self.now.table.columns ≤ length value.old }
        ensures number { replying_number result ≡ row_number_of self.now.table self.now.slot.index (recovered self.now.table.b self.now.secret.now self.now.response.now self.now.masks.now) }
        ensures length { replying_length result ≡ after (replying_number result) (value_length self.now.table.b self.now.table.columns (recovered self.now.table.b self.now.secret.now self.now.response.now self.now.masks.now)) 0 }
        ensures value_after { value.new ≡ after (replying_number result) (laid (value_of self.now.table.b self.now.table.columns (recovered self.now.table.b self.now.secret.now self.now.response.now self.now.masks.now)) value.old) value.old }
    {
        // As long as any row, since the library has no heap.
        let mut room = [0u32; limits::COLUMNS_MOST];
        let row = &mut room[..self.table.columns];
        self.recover(row);
        self.read_row(row, value)
    }
}

// Does this answer close the ticket? Success, 13 and 14 do. (A table of all answers, and no `matches!`: DECISIONS 41.)
fn closes(answer: Result<usize, ReplyingRefusal>) -> bool
    ensures { result ≡ closing (replying_number answer) }
{
    match answer {
        Ok(_) => true,
        Err(ReplyingRefusal::Table) => false,
        Err(ReplyingRefusal::Shape) => false,
        Err(ReplyingRefusal::NotPending) => false,
        Err(ReplyingRefusal::Length) => false,
        Err(ReplyingRefusal::Element) => false,
        Err(ReplyingRefusal::Marker) => true,
        Err(ReplyingRefusal::Digest) => true,
    }
}

// The value for a response, written at the start of `value`: its length comes back, and no part of the buffer. Success, 13 and
// 14 close the ticket. Parameters and answer are the C interface's, which lends table and slab apart.
pub fn process_response(
    table: Table,
    slab: &mut [u32],
    ticket: u32,
    response: &[u32],
    masks: &[u32],
    value: &mut [u8],
) -> Replied
    ensures result_value { reply_said result ≡ reply_of (received table slab.old ticket response.now masks.now value.old) }
    ensures slab_after { slab.new ≡ reply_slab (received table slab.old ticket response.now masks.now value.old) }
    ensures value_after { value.new ≡ reply_value (received table slab.old ticket response.now masks.now value.old) }
{
    // No `and_then`: the goal of a closure that writes `value` speaks of what no proof can name (tried).
    let answer = match Waiting::new(table, slab, ticket, response, masks, value.len()) {
        Ok(waiting) => waiting.answer(value),
        Err(reason) => Err(reason),
    };
    let table = if closes(answer) {
        slots::close(table, slab, ticket)
    } else {
        table
    };
    Replied { answer, table }
}
