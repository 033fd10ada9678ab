// A whole lookup, printed for a person to read: three members' discounts go into a host's store, and a terminal fetches
// them without telling the host whose. Then what must be refused: a line again, a line too late, a wrong member.
#![tactic(auto)]

mod fault;
mod host;
mod store;
mod till;

use fault::Fault;
use std::io;
use till::{Open, Till};

// Ben's discount; and the same line again.
fn once(rt: &impl Print, till: &mut Till) -> Result<(), Fault> {
    println!(rt; "\nBen is at the till.")?;
    let query = till.ask(rt, Open::Ben)?;
    let line = host::answer(rt, &query)?;
    till.come(rt, &line)?;
    println!(rt; "The same line comes again.")?;
    till.come(rt, &line)?;
    Ok(())
}

// Ada's ticket is discarded, and she is asked for anew. The first line is late, and the second is not.
fn again(rt: &impl Print, till: &mut Till) -> Result<(), Fault> {
    println!(rt; "\nAda is at the till, and the lane is started again.")?;
    let first = till.ask(rt, Open::Ada)?;
    till.discard(rt, 2)?;
    let second = till.ask(rt, Open::AdaAgain)?;
    println!(rt; "The first line comes, too late.")?;
    till.come(rt, &host::answer(rt, &first)?)?;
    println!(rt; "The second line comes.")?;
    till.come(rt, &host::answer(rt, &second)?)?;
    Ok(())
}

// Cy's row is fetched under Ben's digest.
fn wrong(rt: &impl Print, till: &mut Till) -> Result<(), Fault> {
    println!(rt; "\nBen's card is read, and Cy's places are asked for.")?;
    let query = till.ask(rt, Open::Wrong)?;
    till.come(rt, &host::answer(rt, &query)?)?;
    Ok(())
}

fn run(rt: &impl Print) -> Result<(), Fault> {
    println!(rt;
        "The host's store: Ada 4.20, Ben 0.75, Cy 12.00, written as rows, placed and packed."
    )?;
    host::show(rt)?;
    let mut till = Till::new()?;
    once(rt, &mut till)?;
    again(rt, &mut till)?;
    wrong(rt, &mut till)
}

// A text that can't be written ends it with just that error. (A refusal, which can't come up on what is fixed here, is printed.)
fn main(rt: HostRuntime) -> io::Result<()> {
    match run(&rt) {
        Err(Fault::Io(e)) => Err(e),
        Err(Fault::Refused(reason)) => println!(rt; "  refused   {reason}"),
        Ok(()) => Ok(()),
    }
}
