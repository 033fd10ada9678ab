// Document 01, "Pending table", as C links it.
ghost use Rattle.std.specs.Prelude.{◌≡◌};
ghost use Rattle.pending.specs.Table.{malformed, fresh_number, fresh_after};

use abi_client::table;
use abi_client::table::Made;
use pending::table::Table;

#[unsafe(no_mangle)]
pub extern "C" fn ladletwig_fresh(b: u32, columns: usize) -> Made
    ensures number_value { result.number ≡ fresh_number b columns }
    ensures table_value { result.table ≡ fresh_after b columns }
{
    table::ladletwig_fresh(b, columns)
}

#[unsafe(no_mangle)]
pub extern "C" fn ladletwig_is_malformed(table: Table) -> bool
    ensures { result ≡ malformed table }
{
    table::ladletwig_is_malformed(table)
}
