// What every reason to refuse has: document 01's number. Each enum has exactly the cases that 01 lists for its entries, also
// where two lists are alike.
ghost use Rattle.std.specs.Prelude.{◌≡◌, ℕ, ◌<◌};
ghost use Rattle.answers.specs.Refusal.{number_of};

pub trait Refusal {
    ghost number: { Self → ℕ };

    // 01's number of this reason. (A `match` in each enum, and no discriminants: of an open's reasons one has a count beside
    // it, which can have none, and all are told alike.)
    fn number(self) -> u32
        ensures { result ≡ number self };

    // 0 is success.
    ghost refuses: { (reason : Self) → 0 < number reason };
}

// 01's number of an answer: 0 where nothing is refused, since C reads a number (the C interface).
pub fn told<T: Drop, R: Refusal>(answer: Result<T, R>) -> u32
    ensures { result ≡ number_of R.number answer }
{
    match answer {
        Ok(_) => 0,
        Err(reason) => reason.number(),
    }
}
