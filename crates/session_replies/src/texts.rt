//! The lines of replies to queries.
ghost use Rattle.std.specs.Prelude.{◌≡◌, ◌++◌, IfOk, codes};
ghost use Rattle.session_answers.specs.Said.{said};
ghost use Rattle.session_replies.specs.Texts.{unknown_line, state_line, verdict_line, found_line, steps_bytes};
ghost use Rattle.session_replies.specs.Texts.{graph_line};

use drive_queries::{Found, Totals, Verdict};
use reply_lines::{counts_text, step_text, verdict_text};
use road_base::{NoMemory, Sequence, Step};
use session_answers::Reply;
use std::alloc::Global;

/// `unknown`, for a line that asks nothing that is known.
pub fn unknown(alloc: Global) -> Result<Vec<u8>, NoMemory>
    ensures { IfOk result (λ line. line.items ≡ unknown_line) }
{
    Ok(b"unknown\n".to_vec(alloc)?)
}

/// The kept number and the four numbers.
pub fn state(alloc: Global, kept: Sequence, totals: &Totals) -> Result<Vec<u8>, NoMemory>
    ensures { IfOk result (λ line. line.items ≡ state_line kept.0 totals.now) }
{
    let kept = kept.0;
    let mut line = format!(in alloc; "state sequence {kept} ")?.into_bytes();
    counts_text(totals, &mut line)?;
    line.push(b'\n')?;
    Ok(line)
}

/// `legal`, or `broken K RULE`.
pub fn verdict_reply(alloc: Global, verdict: &Verdict) -> Result<Vec<u8>, NoMemory>
    ensures { IfOk result (λ line. line.items ≡ verdict_line verdict.now) }
{
    let mut line = Vec::new(alloc);
    verdict_text(verdict, &mut line)?;
    line.push(b'\n')?;
    Ok(line)
}

/// `drive STEP ..`, `no-node N` or `none`, for what is found between two nodes.
pub fn found_reply(alloc: Global, found: &Found) -> Result<Vec<u8>, NoMemory>
    ensures { IfOk result (λ line. line.items ≡ found_line found.now) }
{
    let mut line = match found {
        Found::Drive(drive) => drive_text(alloc, drive.items())?,
        Found::NoNode(node) => {
            let node = node.0;
            format!(in alloc; "no-node {node}")?.into_bytes()
        }
        Found::Nowhere => b"none".to_vec(alloc)?,
    };
    line.push(b'\n')?;
    Ok(line)
}

/// `drive`, and each step behind a space.
fn drive_text(alloc: Global, steps: &[Step]) -> Result<Vec<u8>, NoMemory>
    ensures { IfOk result (λ text. text.items ≡ codes "drive" ++ steps_bytes steps.now) }
{
    let mut text = b"drive".to_vec(alloc)?;
    for step in steps {
        text.push(b' ')?;
        step_text(*step, &mut text)?;
    }
    Ok(text)
}

/// How many bytes the graph has.
pub fn graph_head(alloc: Global, graph: &[u8]) -> Result<Vec<u8>, NoMemory>
    ensures { IfOk result (λ line. line.items ≡ graph_line graph.now) }
{
    let length = graph.len();
    Ok(format!(in alloc; "graph {length}\n")?.into_bytes())
}

/// A line with nothing behind it.
pub fn line_alone(alloc: Global, line: Vec<u8>) -> Reply
    ensures { said result ≡ line.items }
{
    Reply {
        line,
        behind: Vec::new(alloc),
    }
}
