ghost use Rattle.std.specs.Prelude.{◌≡◌, ◌++◌, OnOk, string_bytes};
ghost use Rattle.rt_report.specs.BrokerTexts.{shown_text, stored_text};

use crate::heads::{write_told, write_worded};
use rt_events::Event;
use rt_model::{Node, Seen};
use std::alloc::{AllocError, Global};

/// `node KEY VERSION TEXT` or `nonode KEY`
pub(crate) fn write_shown(
    alloc: Global,
    out: &mut String,
    event: &Event,
    seen: &Option<Seen>,
) -> Result<(), AllocError>
    ensures { OnOk result (string_bytes out.new ≡ string_bytes out.old ++ shown_text event.now seen.now) }
{
    match seen {
        Some(seen) => {
            write_told(out, event)?;
            write!(out, " {} ", seen.version)?;
            write_stored(alloc, out, &seen.node)?;
            out.push_str("\n")
        }
        None => {
            write_worded(out, "nonode", event)?;
            out.push_str("\n")
        }
    }
}

/// Adds a node as it is stored.
pub fn write_stored(alloc: Global, out: &mut String, node: &Node) -> Result<(), AllocError>
    ensures { OnOk result (string_bytes out.new ≡ string_bytes out.old ++ stored_text node.now) }
{
    match node {
        Node::Meta(meta) => {
            let text = rt_meta::text(alloc, meta)?;
            out.push_str(text.as_str())
        }
        Node::Ideal(state) => {
            let text = rt_ideal::text(alloc, state)?;
            out.push_str(text.as_str())
        }
        Node::Boot => out.push_str("-"),
        Node::Gone => out.push_str("-"),
    }
}
