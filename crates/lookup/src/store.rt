// The store: b 10, n 3, R 7, C 33, and three members. Digests, masks, positions and order come from a filter, which stays
// outside: here they are fixed, and every mask is 600. A row of 33 elements of 10 bits has room for a value of 8 bytes.
use super::fault::Refused;
use arith::packing;
use builder::database;
use plain::matrix;
use rows::codec;

#[derive(Clone, Copy)]
pub(crate) enum Member {
    Ada,
    Ben,
    Cy,
}

impl Member {
    // A member goes by a letter, which is every byte of the digest.
    pub(crate) fn digest(self) -> [u8; 32] {
        match self {
            Member::Ada => [b'A'; 32],
            Member::Ben => [b'B'; 32],
            Member::Cy => [b'C'; 32],
        }
    }

    // Where a member's rows stand.
    pub(crate) fn places(self) -> [u32; 4] {
        match self {
            Member::Ada => [0, 1, 2, 3],
            Member::Ben => [1, 2, 3, 4],
            Member::Cy => [2, 4, 5, 6],
        }
    }

    // A member's discount.
    fn value(self) -> &'static [u8] {
        match self {
            Member::Ada => b"4.20",
            Member::Ben => b"0.75",
            Member::Cy => b"12.00",
        }
    }
}

const MEMBERS: [Member; 3] = [Member::Ada, Member::Ben, Member::Cy];

// The public matrix A, n rows of R words.
pub(crate) const PUBLIC_MATRIX: [u32; 21] = [
    3083664546, 3057118199, 1445316900, 1461308820, 3658369895, 4002940607, 3321563708, 595204274,
    1567244369, 1980263713, 1574338988, 4057163220, 2700610207, 754873136, 2339777577, 187601251,
    2623044427, 1821554592, 35322632, 1546271931, 3974921836,
];

// The members' rows, one behind the other.
fn rows() -> Result<[u32; 99], Refused> {
    let mut rows = [0; 99];
    for (member, row) in MEMBERS.iter().zip(rows.chunks_exact_mut(33)) {
        codec::encode_kv_as_row(10, 33, member.digest(), member.value(), row)?;
    }
    Ok(rows)
}

// D, R rows of C elements.
fn elements() -> Result<[u32; 231], Refused> {
    let places = MEMBERS.map(|member| member.places());
    let mut d = [0; 231];
    database::build_database(
        10,
        7,
        33,
        3,
        &rows()?,
        &[600; 99],
        places.as_flattened(),
        &[0, 3, 2],
        &mut d,
    )?;
    Ok(d)
}

// The hint AD, n rows of C words.
pub(crate) fn hint() -> Result<[u32; 99], Refused> {
    let mut h = [0; 99];
    matrix::plain_product(3, 7, 33, &PUBLIC_MATRIX, &elements()?, &mut h)?;
    Ok(h)
}

// The host's store: the columns of D as rows, packed, three elements to a word.
pub(crate) fn packed() -> Result<[u32; 99], Refused> {
    let mut columns = [0; 231];
    matrix::transpose(7, 33, &elements()?, &mut columns)?;
    let mut words = [0; 99];
    packing::row_wise_compress(10, 33, 7, &columns, &mut words)?;
    Ok(words)
}
