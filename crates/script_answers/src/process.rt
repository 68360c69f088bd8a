//! Lines that end with an endpoint.

ghost use Rattle.std.specs.Prelude.{◌≡◌, ◌++◌, OnOk, OnErr};
ghost use Rattle.std.specs.List.{flat_map};
ghost use Rattle.script_answers.specs.Process.{process_end};

use ds_line::{append_all, append_numbers};
use ds_names::{Endpoint, NoRoom};

/// Appends some texts, a process's endpoint and a newline.
pub(crate) fn append_process(
    buffer: &mut Vec<u8>,
    before: &[&[u8]],
    endpoint: Endpoint,
) -> Result<(), NoRoom>
    ensures written { OnOk result (buffer.new.items ≡ buffer.old.items ++ (flat_map (λ t. t.now) before.now ++ process_end endpoint)) }
    ensures unchanged { OnErr result (buffer.new.items ≡ buffer.old.items) }
{
    let start = buffer.len();
    append_all(buffer, before)?;
    let written = append_endpoint(buffer, endpoint);
    if written.is_err() {
        buffer.truncate(start);
    }
    written
}

// Appends an endpoint and a newline.
fn append_endpoint(buffer: &mut Vec<u8>, endpoint: Endpoint) -> Result<(), NoRoom>
    ensures written { OnOk result (buffer.new.items ≡ buffer.old.items ++ process_end endpoint) }
    ensures unchanged { OnErr result (buffer.new.items ≡ buffer.old.items) }
{
    let generation = endpoint.generation().number() as u64;
    append_numbers(buffer, &[(b"", generation), (b"/", endpoint.slot() as u64)])
}
