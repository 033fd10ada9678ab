// Document 01, "Builder", as C links it.
ghost use Rattle.std.specs.Prelude.{◌≡◌};
ghost use Rattle.builder.specs.Database.{proposed, build_number, build_after};

use abi_builder::database;

#[unsafe(no_mangle)]
pub extern "C" fn ladletwig_build_database(
    b: u32,
    r: usize,
    columns: usize,
    count: usize,
    rows: &[u32],
    masks: &[u32],
    positions: &[u32],
    targets: &[u32],
    database: &mut [u32],
) -> u32
    ensures value { result ≡ build_number (proposed b r columns count rows.now masks.now positions.now targets.now database.old) }
    ensures database_after { database.new ≡ build_after (proposed b r columns count rows.now masks.now positions.now targets.now database.old) }
{
    database::ladletwig_build_database(
        b, r, columns, count, rows, masks, positions, targets, database,
    )
}
