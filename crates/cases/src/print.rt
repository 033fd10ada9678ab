// Buffers and tables as answers show them, each with a space before it.
use pending::table::Table;
use std::fmt;
use std::fmt::Display;

// [ 1 7*3 2 ] for 1, three times 7, and 2.
#[derive(Drop)]
pub(crate) struct List<'a, T>(pub(crate) &'a [T]);

impl<T: Copy + PartialEq + Display> Display for List<'_, T> {
    fn fmt<W: fmt::Write>(&self, f: &mut fmt::Formatter<W>) -> fmt::Result {
        write!(f, " [")?;
        for run in self.0.chunk_by(|a, b| a == b) {
            match run {
                [x] => write!(f, " {x}")?,
                [x, ..] => write!(f, " {x}*{}", run.len())?,
                [] => {}
            }
        }
        write!(f, " ]")
    }
}

// Whether a character stands for itself in a text, or is LF.
fn readable(c: u8) -> bool {
    matches!(c, b'\n' | b' '..=b'~') && !matches!(c, b'"' | b'\\')
}

// A line of a protocol: a text where it can be, and else a list. Of the characters that can stand in one LF alone is written as
// two (README.md), so `escape_ascii` won't do: it escapes an apostrophe as well.
#[derive(Drop)]
pub(crate) struct Line<'a>(pub(crate) &'a [u8]);

impl Display for Line<'_> {
    fn fmt<W: fmt::Write>(&self, f: &mut fmt::Formatter<W>) -> fmt::Result {
        if !self.0.iter().all(|c| readable(*c)) {
            return List(self.0).fmt(f);
        }
        write!(f, " \"")?;
        for c in self.0 {
            match *c {
                b'\n' => write!(f, "\\n")?,
                c => write!(f, "{}", char::from(c))?,
            }
        }
        write!(f, "\"")
    }
}

#[derive(Drop)]
pub(crate) struct Shown<'a>(pub(crate) &'a Table);

impl Display for Shown<'_> {
    fn fmt<W: fmt::Write>(&self, f: &mut fmt::Formatter<W>) -> fmt::Result {
        let t = self.0;
        write!(f, " {} {} {}", t.b, t.columns, t.next)?;
        write!(f, "{}{}", List(&t.numbers), List(&t.digests))
    }
}
