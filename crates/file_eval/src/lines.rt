//! The lines of `eval`: an id and the value of its share at a prefix.
//! Their spelling stands in specs/ValueLines.antt.

ghost use Rattle.std.specs.Prelude.{◌≡◌, ◌≤◌, IfOk, length};
ghost use Rattle.std.specs.String.{string_bytes};
ghost use Rattle.file_eval.specs.ValueLines.{node_line, value_line};

use idpf_eval::{Node, Share, eval_uncounted};
use prefix_bits::{Prefix, ReportId, Side};
use std::alloc::{AllocError, Global};

/// An id in hexadecimal digits and a node's value.
fn node_text(alloc: Global, id: &ReportId, node: &Node) -> Result<String, AllocError>
    ensures line { IfOk result (λ line. string_bytes line ≡ node_line id.now node.now) }
{
    let digits = hex::encode(alloc, id.0)?;
    let d = node.d.number();
    let e = node.e.number();
    format!(in alloc; "{digits}\t{d}\t{e}\n")
}

/// The line of a share at a prefix that is not longer than its levels: the id, and both elements of the value.
pub(crate) fn value_text(
    alloc: Global,
    share: &Share,
    side: Side,
    prefix: &Prefix,
) -> Result<String, AllocError>
    requires bits { length prefix.now ≤ length share.now.levels }
    ensures line { IfOk result (λ line. string_bytes line ≡ value_line side prefix.now share.now) }
{
    let node = eval_uncounted(share, side, prefix);
    node_text(alloc, &share.id, &node)
}
