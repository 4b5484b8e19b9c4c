//! The text of sizes.
ghost use Rattle.std.specs.Prelude.{◌≡◌, ◌++◌, IfOk, OnOk, OnErr, string_bytes};
ghost use Rattle.reply_lines.specs.Texts.{counts_bytes};

use drive_queries::Totals;
use road_base::NoMemory;
use std::alloc::{AllocError, Global};

/// The four numbers, each behind its name.
fn counted(alloc: Global, totals: Totals) -> Result<String, AllocError>
    ensures { IfOk result (λ text. string_bytes text ≡ counts_bytes totals) }
{
    let Totals {
        ways,
        pieces,
        contexts,
        arcs,
    } = totals;
    format!(in alloc; "ways {ways} pieces {pieces} contexts {contexts} arcs {arcs}")
}

/// Appends how large a graph is: `ways W pieces P contexts C arcs A`.
pub fn counts_text(totals: &Totals, out: &mut Vec<u8>) -> Result<(), NoMemory>
    ensures ok { OnOk result (out.new.items ≡ out.old.items ++ counts_bytes totals.now) }
    ensures err { OnErr result (out.new.items ≡ out.old.items) }
{
    let text = counted(*out.allocator(), *totals)?;
    out.extend_from_slice(text.as_bytes())?;
    Ok(())
}
