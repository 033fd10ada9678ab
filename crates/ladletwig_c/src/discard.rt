// Document 01, "Reply": the discard, as C links it.
ghost use Rattle.std.specs.Prelude.{◌≡◌, length};
ghost use Rattle.replies.specs.Discard.{discard_number, discard_table, discard_slab};

use abi_client::discard;
use abi_client::discard::Discarded;
use pending::table::Table;

#[unsafe(no_mangle)]
pub extern "C" fn ladletwig_discard_query(table: Table, slab: &mut [u32], ticket: u32) -> Discarded
    ensures number_value { result.number ≡ discard_number table (length slab.old) ticket }
    ensures table_value { result.table ≡ discard_table table slab.old ticket }
    ensures slab_after { slab.new ≡ discard_slab table slab.old ticket }
{
    discard::ladletwig_discard_query(table, slab, ticket)
}
