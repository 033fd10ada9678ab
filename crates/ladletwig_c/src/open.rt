// Document 01, "Open", as C links it.
ghost use Rattle.std.specs.Prelude.{◌≡◌};
ghost use Rattle.queries.specs.Open.{asked, open_of, left, open_left};
ghost use Rattle.abi_client.specs.Open.{opened_said, places_of};

use abi_client::open;
use abi_client::open::{Opened, Positions};
use pending::table::Table;

#[unsafe(no_mangle)]
pub extern "C" fn ladletwig_query_for_4_wise_xor_filter(
    table: Table,
    slab: &mut [u32],
    n: usize,
    r: usize,
    matrix: &[u32],
    hint: &[u32],
    interval: u32,
    positions: Positions,
    digest: &[u8; 32],
    words: &[u32],
    secret: &mut [u32],
    error: &mut [u32],
    query: &mut [u32],
) -> Opened
    ensures result_value { opened_said result ≡ open_of (asked table slab.old n r matrix.now hint.now interval (places_of positions) digest.now words.now secret.old error.old query.old) }
    ensures query_after { left slab.new secret.new error.new query.new ≡ open_left (asked table slab.old n r matrix.now hint.now interval (places_of positions) digest.now words.now secret.old error.old query.old) }
{
    open::ladletwig_query_for_4_wise_xor_filter(
        table, slab, n, r, matrix, hint, interval, positions, digest, words, secret, error, query,
    )
}
