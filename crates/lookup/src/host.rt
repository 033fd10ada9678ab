// The host, which never learns whose row is asked for. It reads queries and writes responses: lines like the terminal's, the
// two kinds the other way round.
use super::fault::{Fault, Refused};
use super::store;
use frames::lines;
use std::io;
use std::io::Write;
use view::packed;

pub(crate) type Response = [u8; 291];

// One column of D, so that a reader sees what the host does. The store is read as a view of its words: b 10, and 33 rows,
// each a column of D.
pub(crate) fn show(rt: &impl Print) -> Result<(), Fault> {
    let words = store::packed()?;
    let mut elements = [0; 231];
    packed::unpack(packed::view(10, 33, 7, &words), &mut elements).map_err(Refused::from)?;
    print!(rt; "The host sees numbers without names, in its first column of 33:")?;
    for x in &elements[..7] {
        print!(rt; " {x}")?;
    }
    println!(rt; "")?;
    Ok(())
}

// The response to a query line: the product of its words with the store, under its ticket.
fn respond(query: &[u8]) -> Result<Response, Refused> {
    let mut words = [0; 7];
    let (ticket, _) = lines::read_line(lines::QUERY, query, &mut words)?;
    let store = store::packed()?;
    let mut product = [0; 33];
    packed::multiply(&words, packed::view(10, 33, 7, &store), &mut product)?;
    let mut line = [0; 291];
    lines::write_line(lines::RESPONSE, ticket, &product, &mut line)?;
    Ok(line)
}

pub(crate) fn answer(rt: &impl Print, query: &[u8]) -> Result<Response, Fault> {
    let response = respond(query)?;
    print!(rt; "  host      ")?;
    io::writer(rt).write_all(&response)?;
    Ok(response)
}
