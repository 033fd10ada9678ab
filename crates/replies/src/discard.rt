// Document 01, "Reply": a pending ticket that no reply will come for is closed and wiped.
ghost use Rattle.std.specs.Prelude.{◌≡◌, length};
ghost use Rattle.replies.specs.Discard.{discard_number, discard_table, discard_slab};
ghost use Rattle.client_answers.specs.Discard.{discarding_number};

pub use client_answers::discard::DiscardingRefusal;
use pending::table::Table;
use tickets::slots;

// No Result: the table comes back on a refusal too. (One generic struct for this and `Replied` would be no shorter: each
// clause and `reply_said` would have to name its parameter.)
#[derive(Clone, Copy)]
pub struct Discarded {
    pub answer: Result<(), DiscardingRefusal>,
    pub table: Table,
}

// 18, 2, 10: the order that document 01 gives.
#[tactic(auto, unfolding(crate::specs::Discard::discard_number))]
fn check(table: &Table, slab: usize, ticket: u32) -> Result<(), DiscardingRefusal>
    ensures { discarding_number result ≡ discard_number table.now slab ticket }
{
    if table.is_malformed() {
        return Err(DiscardingRefusal::Table);
    }
    if table.slab_bad(slab) {
        return Err(DiscardingRefusal::Shape);
    }
    if !table.is_pending(ticket) {
        return Err(DiscardingRefusal::NotPending);
    }
    Ok(())
}

// Frees the slot of a pending ticket, and wipes its digest and its secret words.
pub fn discard_query(table: Table, slab: &mut [u32], ticket: u32) -> Discarded
    ensures answer_value { discarding_number result.answer ≡ discard_number table (length slab.old) ticket }
    ensures table_value { result.table ≡ discard_table table slab.old ticket }
    ensures slab_after { slab.new ≡ discard_slab table slab.old ticket }
{
    let answer = check(&table, slab.len(), ticket);
    let table = match answer {
        Ok(()) => slots::close(table, slab, ticket),
        Err(_) => table,
    };
    Discarded { answer, table }
}
