// Document 01, "Reply", as C links it.
ghost use Rattle.std.specs.Prelude.{◌≡◌};
ghost use Rattle.replies.specs.Reply.{received, reply_of, reply_slab, reply_value};
ghost use Rattle.abi_client.specs.Reply.{replied_said};

use abi_client::reply;
use abi_client::reply::Replied;
use pending::table::Table;

#[unsafe(no_mangle)]
pub extern "C" fn ladletwig_process_response(
    table: Table,
    slab: &mut [u32],
    ticket: u32,
    response: &[u32],
    masks: &[u32],
    value: &mut [u8],
) -> Replied
    ensures result_value { replied_said result ≡ reply_of (received table slab.old ticket response.now masks.now value.old) }
    ensures slab_after { slab.new ≡ reply_slab (received table slab.old ticket response.now masks.now value.old) }
    ensures value_after { value.new ≡ reply_value (received table slab.old ticket response.now masks.now value.old) }
{
    reply::ladletwig_process_response(table, slab, ticket, response, masks, value)
}
