// Answers a list of calls through the library's C face. Standard input has a call a line, in the form that README.md
// gives; each line comes out again with its answer behind it. What the answers must be stands in stdout.
#![tactic(auto)]

mod args;
mod bytes;
mod fault;
mod line;
mod print;
mod state;
mod words;

use args::Args;
use fault::Fault;
use state::State;
use std::io;
use std::io::{Read, Write};

// Stdin's bytes; those behind them are not read.
const TEXT: u64 = 262144;

// Any call, by the number that stands first: each stands here alone, beside what takes its arguments, so an enum of entries
// would only say it twice. 22 and 23 are no entries of the library.
fn call(rt: &(impl Print + AllocGlobal), line: &[u8], state: &mut State) -> Result<(), Fault> {
    let numbers = line::numbers(rt.alloc(), line)?;
    let mut args = Args::new(rt.alloc(), &numbers);
    match args.word()? {
        1 => words::compress(rt, args),
        2 => words::decompress(rt, args),
        3 => words::product(rt, args),
        4 => words::plain_product(rt, args),
        5 => words::transpose(rt, args),
        6 => words::sample(rt, args),
        7 => words::unread(rt, args),
        8 => bytes::to_bytes(rt, args),
        9 => words::from_bytes(rt, args),
        10 => words::encode(rt, args),
        11 => bytes::decode(rt, args),
        12 => words::build(rt, args),
        13 => bytes::indicator(rt, args),
        14 => bytes::rounded(rt, args),
        15 => bytes::write_line(rt, args),
        16 => words::read_line(rt, args),
        17 => state.fresh(rt, args),
        18 => state.malformed(rt, args),
        19 => state.open(rt, args),
        20 => state.reply(rt, args),
        21 => state.discard(rt, args),
        22 => state.set(rt, args),
        23 => state.lay(rt, args),
        _ => Err(Fault::BadLine),
    }
}

// A line, and what it is answered; nothing, where it is empty or a comment.
fn told(rt: &(impl Print + AllocGlobal), line: &[u8], state: &mut State) -> io::Result<()> {
    io::writer(rt).write_all(line)?;
    if matches!(line, [] | [b'#', ..]) {
        return Ok(());
    }
    print!(rt; " -> ")?;
    match call(rt, line, state) {
        Err(Fault::BadLine) => print!(rt; "bad line"),
        Err(Fault::Io(e)) => Err(e),
        Ok(()) => Ok(()),
    }
}

// Line by line. LF stands behind each.
fn run(rt: &(impl Print + Input + AllocGlobal)) -> io::Result<()> {
    let mut text = Vec::new(rt.alloc());
    rt.reader().take(TEXT).read_to_end(&mut text)?;
    let mut state = State::new();
    for piece in text.split_inclusive(|c| *c == b'\n') {
        let line = piece.strip_suffix(b"\n").unwrap_or(piece);
        told(rt, line, &mut state)?;
        println!(rt; "")?;
    }
    Ok(())
}

fn main(rt: HostRuntime) -> io::Result<()> {
    run(&rt)
}
