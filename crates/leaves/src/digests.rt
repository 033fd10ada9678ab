// Document 01, "Reply": all 32 digest bytes are compared.
ghost use Rattle.std.specs.Prelude.{◌≡◌};
ghost use Rattle.leaves.specs.Digests.{differs};

// Do two digests differ in any byte? Each byte counts by itself, none is folded into another; and all are read, so that the
// time taken does not tell where they differ (DECISIONS 30).
pub fn digest_differs(x: [u8; 32], y: [u8; 32]) -> bool
    ensures { result ≡ differs x y }
{
    let mut apart = false;
    for (p, q) in x.iter().zip(&y) {
        apart |= p != q;
    }
    apart
}
