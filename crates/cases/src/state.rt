// The table and the slab at hand, and the calls on them. A new table comes over the slab as the calls before left it.
use super::args::Args;
use super::fault::Fault;
use super::print::{List, Shown};
use abi_client::{discard, open, reply, table};
use pending::table::Table;

// The slab has room for the secrets of every table that is opened over.
#[derive(Drop)]
pub(crate) struct State {
    table: Table,
    slab: [u32; 4608],
}

// The first n words of the slab, or all of them.
fn lent(slab: &mut [u32], n: usize) -> &mut [u32] {
    let n = n.min(slab.len());
    &mut slab[..n]
}

impl State {
    // The table before the first call is what a refused `fresh` gives.
    pub(crate) fn new() -> State {
        State {
            table: table::ladletwig_fresh(0, 0).table,
            slab: [7; 4608],
        }
    }

    pub(crate) fn fresh(&mut self, rt: &impl Print, mut args: Args<'_>) -> Result<(), Fault> {
        let (b, columns) = (args.word()?, args.size()?);
        args.end()?;
        let made = table::ladletwig_fresh(b, columns);
        self.table = made.table;
        print!(rt; "{}{}", made.number, Shown(&self.table))?;
        Ok(())
    }

    pub(crate) fn malformed(&self, rt: &impl Print, args: Args<'_>) -> Result<(), Fault> {
        args.end()?;
        rt.print(table::ladletwig_is_malformed(self.table))?;
        Ok(())
    }

    pub(crate) fn open(&mut self, rt: &impl Print, mut args: Args<'_>) -> Result<(), Fault> {
        let slab = lent(&mut self.slab, args.size()?);
        let (n, r, interval) = (args.size()?, args.size()?, args.word()?);
        let positions = args.positions()?;
        let (matrix, hint, digest) = (args.words()?, args.words()?, args.digest()?);
        let (words, mut secret) = (args.words()?, args.words()?);
        let (mut error, mut query) = (args.words()?, args.words()?);
        args.end()?;
        let o = open::ladletwig_query_for_4_wise_xor_filter(
            self.table,
            slab,
            n,
            r,
            &matrix,
            &hint,
            interval,
            positions,
            &digest,
            &words,
            &mut secret,
            &mut error,
            &mut query,
        );
        self.table = o.table;
        print!(rt;
            "{} {} {}{}",
            o.number,
            o.ticket,
            o.read,
            Shown(&self.table)
        )?;
        print!(rt;
            "{}{}{}{}",
            List(&secret),
            List(&error),
            List(&query),
            List(slab)
        )?;
        Ok(())
    }

    pub(crate) fn reply(&mut self, rt: &impl Print, mut args: Args<'_>) -> Result<(), Fault> {
        let slab = lent(&mut self.slab, args.size()?);
        let ticket = args.word()?;
        let (response, masks, mut value) = (args.words()?, args.words()?, args.bytes()?);
        args.end()?;
        let r = reply::ladletwig_process_response(
            self.table, slab, ticket, &response, &masks, &mut value,
        );
        self.table = r.table;
        print!(rt; "{} {}{}", r.number, r.length, Shown(&self.table))?;
        print!(rt; "{}{}", List(&value), List(slab))?;
        Ok(())
    }

    pub(crate) fn discard(&mut self, rt: &impl Print, mut args: Args<'_>) -> Result<(), Fault> {
        let slab = lent(&mut self.slab, args.size()?);
        let ticket = args.word()?;
        args.end()?;
        let d = discard::ladletwig_discard_query(self.table, slab, ticket);
        self.table = d.table;
        print!(rt; "{}{}{}", d.number, Shown(&self.table), List(slab))?;
        Ok(())
    }

    // Not a call: makes the table one that no call gives. b, C and next are set, then a slot's number, then a byte of the
    // digests; a slot or a byte that there is none of leaves them as they are.
    pub(crate) fn set(&mut self, rt: &impl Print, mut args: Args<'_>) -> Result<(), Fault> {
        let (b, columns, next) = (args.word()?, args.size()?, args.word()?);
        let (slot, number) = (args.size()?, args.word()?);
        let (at, byte) = (args.size()?, args.word()?);
        args.end()?;
        self.table.b = b;
        self.table.columns = columns;
        self.table.next = next;
        if let Some(x) = self.table.numbers.get_mut(slot) {
            *x = number;
        }
        if let Some(x) = self.table.digests.get_mut(at) {
            *x = byte.to_le_bytes()[0];
        }
        print!(rt; "set{}", Shown(&self.table))?;
        Ok(())
    }

    // Not a call: lays one value in every word of the slab.
    pub(crate) fn lay(&mut self, rt: &impl Print, mut args: Args<'_>) -> Result<(), Fault> {
        let x = args.word()?;
        args.end()?;
        self.slab.fill(x);
        print!(rt; "slab{}", List(&self.slab))?;
        Ok(())
    }
}
