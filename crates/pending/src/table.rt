// Document 01, "Pending table": 64 slots by value, made and searched. Their secrets lie in a lent slab, which is not part of
// the table.
ghost use Rattle.std.specs.Prelude.{◌≡◌, not, ◌&&◌, ◌<◌, true, false, ◌*◌, replicate, leb, eqb, IfOk, MatchOption};
ghost use Rattle.laws.specs.Search.{some};
ghost use Rattle.leaves.specs.Digests.{differs};
ghost use Rattle.pending.specs.Table.{number_at, digest_at, used, alike, malformed};
ghost use Rattle.pending.specs.Table.{slot_of, pending, digest_pending, differs_at};
ghost use Rattle.pending.specs.Table.{fresh_number, fresh_after};
ghost use Rattle.client_answers.specs.Table.{making_number};

pub use client_answers::table::MakingRefusal;
use leaves::{digests, limits};
use rows::codec;

// Slots, and the bytes of all their digests.
pub const SLOTS: usize = 64;

pub const DIGEST_BYTES: usize = 32 * SLOTS;
// The next number that is refused by 9.
pub const NUMBERS_END: u32 = 4294967295;

// It crosses to C (`ladletwig_fresh`), so numbers and digests stay two arrays, the digests flat, and a free slot is number 0
// and no Option.
#[repr(C)]
#[derive(Clone, Copy)]
pub struct Table {
    pub b: u32,
    // C, the words of a row and of a slot's secret.
    pub columns: usize,
    // The number that the next ticket has.
    pub next: u32,
    // Slot s's ticket; 0 where it is free.
    pub numbers: [u32; SLOTS],
    // Slot s's 32 bytes from 32·s on; zeros where it is free.
    pub digests: [u8; DIGEST_BYTES],
}

// One of the 64 slots, of any table.
#[derive(Clone, Copy, Debug, PartialEq, Eq)]
pub struct Slot {
    pub index: usize,
    pub ghost within: { index < 64 },
}

// A new table, and so a new history: its numbers start at 1 again, and no line of an earlier table is for it.
#[tactic(auto, unfolding(crate::specs::Table::fresh_number))]
pub fn fresh(b: u32, columns: usize) -> Result<Table, MakingRefusal>
    ensures answer_value { making_number result ≡ fresh_number b columns }
    ensures table_value { IfOk result (λ table. table ≡ fresh_after b columns) }
{
    if limits::width_bad(b) {
        return Err(MakingRefusal::Width);
    }
    if codec::columns_bad(b, columns) {
        return Err(MakingRefusal::Shape);
    }
    Ok(Table {
        b,
        columns,
        next: 1,
        numbers: [0; SLOTS],
        digests: [0; DIGEST_BYTES],
    })
}

impl Table {
    // The 32 digest bytes of a slot.
    #[tactic(auto, using(laws::proofs::Lists::chunk_row))]
    fn digest_of(&self, slot: Slot) -> [u8; 32]
        ensures { result ≡ digest_at self.now slot.index }
    {
        self.digests.as_chunks().0[slot.index]
    }

    // A used number at or above next?
    fn number_ahead(&self) -> bool
        ensures { result ≡ some 64 (λ s. used self.now s && leb self.now.next (number_at self.now s)) }
    {
        self.numbers.iter().any(|n| *n != 0 && self.next <= *n)
    }

    // Are slots q and s both used, and equal in number or digest?
    #[tactic(auto, unfolding(crate::specs::Table::alike))]
    fn both_alike(&self, q: Slot, s: Slot) -> bool
        ensures { result ≡ alike self.now q.index s.index }
    {
        self.numbers[q.index] != 0
            && self.numbers[s.index] != 0
            && (self.numbers[q.index] == self.numbers[s.index]
                || !digests::digest_differs(self.digest_of(q), self.digest_of(s)))
    }

    // Is slot s alike to one before it? (The closure says that q is a slot, here and below, where the check does not find it.)
    fn alike_before(&self, s: Slot) -> bool
        ensures { result ≡ some s.index (λ q. alike self.now q s.index) }
    {
        (0..s.index).any(
            |q|
                requires { q < 64 }
            { self.both_alike(Slot { index: q }, s) },
        )
    }

    // Two used slots equal in number or digest?
    fn any_alike(&self) -> bool
        ensures { result ≡ some 64 (λ s. some s (λ q. alike self.now q s)) }
    {
        (0..SLOTS).any(
            |s|
                requires { s < 64 }
            { self.alike_before(Slot { index: s }) },
        )
    }

    // A free slot with a nonzero digest byte?
    fn free_unclean(&self) -> bool
        ensures { result ≡ some 64 (λ s. not (used self.now s) && differs (digest_at self.now s) (replicate 32 0)) }
    {
        (0..SLOTS).any(
            |s|
                requires { s < 64 }
            {
                self.numbers[s] == 0
                    && digests::digest_differs(self.digest_of(Slot { index: s }), [0; 32])
            },
        )
    }

    // 2: has a slab of this length not 64·C words? 64·C may be more than a `usize` holds, so it is not taken.
    pub fn slab_bad(&self, slab: usize) -> bool
        ensures { result ≡ not (eqb slab (64 * self.now.columns)) }
    {
        slab % SLOTS != 0 || slab / SLOTS != self.columns
    }

    // 18: is the table malformed?
    #[tactic(auto, unfolding(crate::specs::Table::malformed))]
    pub fn is_malformed(&self) -> bool
        ensures { result ≡ malformed self.now }
    {
        limits::width_bad(self.b)
            || codec::columns_bad(self.b, self.columns)
            || self.next == 0
            || self.number_ahead()
            || self.any_alike()
            || self.free_unclean()
    }

    // The lowest slot with this number, if one has it. A free slot has number 0.
    pub fn find(&self, number: u32) -> Option<Slot>
        ensures { MatchOption result (slot_of self.now number ≡ 64) (λ s. s.index ≡ slot_of self.now number) }
    {
        let index = self.numbers.iter().position(|n| *n == number)?;
        Some(Slot { index })
    }

    // The same, or 64 (and no Option), as the clause with `slot_of` of specs/ has it.
    pub fn slot_of(&self, number: u32) -> usize
        ensures { result ≡ slot_of self.now number }
    {
        self.find(number).map_or(SLOTS, |slot| slot.index)
    }

    // The slot of a pending ticket. 0 never is one, since it is what a free slot has.
    #[tactic(auto, using(crate::proofs::table::Slots::pending_found, crate::proofs::table::Slots::pending_none), unfolding(crate::specs::Table::pending))]
    pub fn pending_slot(&self, ticket: u32) -> Option<Slot>
        ensures { MatchOption result (pending self.now ticket ≡ false)
            (λ s. (pending self.now ticket ≡ true) × (s.index ≡ slot_of self.now ticket)) }
    {
        if ticket == 0 {
            return None;
        }
        self.find(ticket)
    }

    // 10, when not: is the ticket pending?
    pub fn is_pending(&self, ticket: u32) -> bool
        ensures { result ≡ pending self.now ticket }
    {
        self.pending_slot(ticket).is_some()
    }

    // 7: has a used slot this digest?
    pub fn digest_pending(&self, digest: [u8; 32]) -> bool
        ensures { result ≡ digest_pending self.now digest }
    {
        (0..SLOTS).any(|s| self.numbers[s] != 0
            && !digests::digest_differs(self.digest_of(Slot { index: s }), digest))
    }

    // 14: does this digest differ from slot s's in any byte? Where s is free, or none of the 64, every digest does.
    pub fn differs_at(&self, s: usize, digest: [u8; 32]) -> bool
        ensures { result ≡ differs_at self.now s digest }
    {
        SLOTS <= s
            || self.numbers[s] == 0
            || digests::digest_differs(digest, self.digest_of(Slot { index: s }))
    }
}
