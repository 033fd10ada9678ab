// Document 01, refusal 5: positions that are distinct and inside the database. The builder and the client share it.
ghost use Rattle.std.specs.Prelude.{◌≡◌, get_or, eqb};
ghost use Rattle.laws.specs.Search.{some};
ghost use Rattle.leaves.specs.Positions.{positions_bad};

// Is a position equal to one that stands before it?
fn repeats(ps: [u32; 4]) -> bool
    ensures { result ≡ some 4 (λ s. some s (λ t. eqb (get_or ps t 0) (get_or ps s 0))) }
{
    (0..ps.len()).any(|s| ps[..s].contains(&ps[s]))
}

// 5's sense: is a position r or more, or are two equal?
pub fn positions_bad(r: usize, ps: [u32; 4]) -> bool
    ensures { result ≡ positions_bad r ps }
{
    ps.iter().any(|p| r <= *p as usize) || repeats(ps)
}
