// The limits of document 01, "Numbers we allow", tested before any product of dimensions is taken.
ghost use Rattle.std.specs.Prelude.{◌≡◌};
ghost use Rattle.laws.specs.Refusals.{outside, width_bad};
ghost use Rattle.leaves.specs.Limits.{any_above};

// b: the width of an element.
pub const WIDTH_LEAST: usize = 4;

pub const WIDTH_MOST: usize = 14;
// R, and every dimension, count of wanted words or line that has no other bound.
pub const ROWS_MOST: usize = 4096;
// C, and the rows that packing takes.
pub const COLUMNS_MOST: usize = 512;
// n.
pub const SECRET_MOST: usize = 2048;
// I: three times the greatest is the greatest word.
pub const INTERVAL_MOST: usize = 1431655765;

// Is x none of lo, .., hi?
pub fn out_of(lo: usize, hi: usize, x: usize) -> bool
    ensures { result ≡ outside lo hi x }
{
    !(lo..=hi).contains(&x)
}

// 1: is b outside 4..=14?
pub fn width_bad(b: u32) -> bool
    ensures { result ≡ width_bad b }
{
    out_of(WIDTH_LEAST, WIDTH_MOST, b as usize)
}

// 17: is one of the elements above the greatest that is allowed, which is 2^b - 1?
pub fn any_above(greatest: u32, elements: &[u32]) -> bool
    ensures { result ≡ any_above greatest elements.now }
{
    elements.iter().any(|x| greatest < *x)
}
