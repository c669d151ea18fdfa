//! A caller of `report_text`.

ghost use Rattle.std.specs.Prelude.{◌≡◌, true, Some, IfOk, string_bytes};
ghost use Rattle.serde_json.specs.Read.{read};
ghost use Rattle.report_text.specs.Json.{report_data};

use replica_state::Replica;
use report_text::{report_json, report_lines};
use std::alloc::{AllocError, Global};

/// Whether two replicas report the same. They do where they know the same operations, since then
/// they stand for equal states.
pub fn report_alike<R: Replica, S: Replica>(
    alloc: Global,
    left: &R,
    right: &S,
    nodes: u8,
) -> Result<bool, AllocError>
    ensures { R.state left.now ≡ S.state right.now → IfOk result (λ alike. alike ≡ true) }
{
    let told = report_lines(alloc, left, nodes)?;
    Ok(told == report_lines(alloc, right, nodes)?)
}

/// The JSON report, which whoever reads it has back as the value that it says.
pub fn report_to_read<R: Replica>(
    alloc: Global,
    replica: &R,
    nodes: u8,
) -> Result<String, AllocError>
    ensures { IfOk result
        (λ text. read (string_bytes text) ≡ Some (report_data (R.state replica.now) nodes)) }
{
    report_text::laws::json_is_read();
    report_json(alloc, replica, nodes)
}
