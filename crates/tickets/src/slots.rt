// Document 01, "Pending table": a slot taken and a slot closed. To refuse by a number is the caller's part: here a digest,
// ticket or slab for which there is nothing to do leaves all as it was.
ghost use Rattle.std.specs.Prelude.{◌≡◌, ◌*◌, ◌<◌, true, false, length, MatchOption};
ghost use Rattle.laws.specs.Lists.{splice};
ghost use Rattle.pending.specs.Table.{slot_of, taken, takable, take_after, closed, wiped, closable, close_after, wipe_after};

use leaves::{limits, words};
use pending::table::{DIGEST_BYTES, NUMBERS_END, Slot, Table};

// The last number that a ticket may have.
const LAST_NUMBER: usize = NUMBERS_END as usize - 1;

// Stores a digest in a slot.
fn put_digest(digests: &mut [u8; DIGEST_BYTES], slot: Slot, digest: [u8; 32])
    ensures { digests.new ≡ splice (slot.index * 32) digest digests.old }
{
    let to = slot.index * 32;
    digests[to..to + 32].copy_from_slice(&digest);
}

// The table with the next number and this digest in a slot.
fn take_slot(mut table: Table, slot: Slot, digest: [u8; 32]) -> Table
    requires { table.next < 4294967295 }
    ensures { result ≡ taken table slot.index digest }
{
    table.numbers[slot.index] = table.next;
    table.next += 1;
    put_digest(&mut table.digests, slot, digest);
    table
}

// The lowest free slot, where the digest is not pending and next is a number that a ticket may have.
#[tactic(auto, using(pending::proofs::table::Slots::full_test), unfolding(pending::specs::Table::takable))]
fn free_slot(table: &Table, digest: [u8; 32]) -> Option<Slot>
    ensures { MatchOption result (takable table.now digest ≡ false)
        (λ s. (takable table.now digest ≡ true) × (s.index ≡ slot_of table.now 0) × (table.now.next < 4294967295)) }
{
    if table.digest_pending(digest) || limits::out_of(1, LAST_NUMBER, table.next as usize) {
        return None;
    }
    table.find(0)
}

// The table with the next number and this digest in its lowest free slot. Where 7, 8 or 9 holds it stays as it is.
pub fn take(table: Table, digest: [u8; 32]) -> Table
    ensures { result ≡ take_after table digest }
{
    match free_slot(&table, digest) {
        Some(slot) => take_slot(table, slot, digest),
        None => table,
    }
}

// Frees a slot, and wipes its digest and its secret words. (64·C is said here: C lends table and slab apart.)
fn close_slot(mut table: Table, slab: &mut [u32], slot: Slot) -> Table
    requires { length slab.old ≡ 64 * table.columns }
    ensures value { result ≡ closed table slot.index }
    ensures slab_after { slab.new ≡ wiped table.columns slot.index slab.old }
{
    // (Where a slot's words lie, as in queries' `put_secret`.)
    let start = slot.index * table.columns;
    words::zero(&mut slab[start..start + table.columns]);
    table.numbers[slot.index] = 0;
    put_digest(&mut table.digests, slot, [0; 32]);
    table
}

// The slot of a pending ticket, where a slab of this length is the table's.
#[tactic(auto, unfolding(pending::specs::Table::closable))]
fn slot_to_close(table: &Table, slab: usize, ticket: u32) -> Option<Slot>
    ensures { MatchOption result (closable table.now slab ticket ≡ false)
        (λ s. (closable table.now slab ticket ≡ true)
        × (s.index ≡ slot_of table.now ticket)
        × (slab ≡ 64 * table.now.columns)) }
{
    if table.slab_bad(slab) {
        return None;
    }
    table.pending_slot(ticket)
}

// Frees the slot of a pending ticket (the lowest, should two have its number), and wipes its digest and its secret words.
// Without such a ticket, or a slab of 64·C words, table and slab stay as they are.
pub fn close(table: Table, slab: &mut [u32], ticket: u32) -> Table
    ensures value { result ≡ close_after table (length slab.old) ticket }
    ensures slab_after { slab.new ≡ wipe_after table slab.old ticket }
{
    match slot_to_close(&table, slab.len(), ticket) {
        Some(slot) => close_slot(table, slab, slot),
        None => table,
    }
}
