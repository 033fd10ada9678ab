// Document 01, "Builder": the keys of a proposed order, as they are lent: flat, key after key (the C interface), so that they
// are gone through by their index.
ghost use Rattle.std.specs.Prelude.{◌≡◌, ◌*◌, ◌<◌, ◌≤◌, length};

// Their shape has been tested: each list has as many words as `count` keys take, four positions and one index for each key.
#[derive(Clone, Copy)]
pub(crate) struct LentKeys<'a> {
    pub r: usize,
    pub columns: usize,
    pub count: usize,
    pub rows: &'a [u32],
    pub masks: &'a [u32],
    pub positions: &'a [u32],
    pub targets: &'a [u32],
    pub ghost r_most: { r ≤ 4096 },
    pub ghost columns_most: { columns ≤ 512 },
    pub ghost rows_whole: { length rows.now ≡ count * columns },
    pub ghost masks_whole: { length masks.now ≡ count * columns },
    pub ghost positions_whole: { length positions.now ≡ count * 4 },
    pub ghost targets_whole: { length targets.now ≡ count },
}

impl<'a> LentKeys<'a> {
    ghost use Rattle.laws.specs.Lists.{row};

    // The four positions of key i.
    #[tactic(auto, using(laws::proofs::Lists::chunk_row))]
    pub(crate) fn places(self, i: usize) -> [u32; 4]
        requires { i < self.count }
        ensures { result ≡ row 4 self.entry.positions.now i }
    {
        self.positions.as_chunks().0[i]
    }
}
