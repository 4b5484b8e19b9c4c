//! The replies to queries for drives of least cost.
ghost use Rattle.std.specs.Prelude.{◌≡◌, ◌++◌, IfOk, OnOk};
ghost use Rattle.session_answers.specs.Said.{said};
ghost use Rattle.session_replies.specs.CostTexts.{shortest_line, potential_bytes, certificate_bytes, certificate_line};
ghost use Rattle.session_replies.specs.CostTexts.{certified_said, cheapest_said};

use crate::texts::{found_reply, line_alone};
use drive_queries::Found;
use least_cost::{Cheapest, Potentials, Shortest};
use road_base::NoMemory;
use session_answers::Reply;
use std::alloc::Global;

/// `cost C drive STEP ..`, `none` or `no-node N`, for a drive of least cost between two nodes.
pub fn shortest_reply(alloc: Global, shortest: Shortest) -> Result<Vec<u8>, NoMemory>
    ensures { IfOk result (λ line. line.items ≡ shortest_line shortest) }
{
    match shortest {
        Shortest::Route { cost, drive } => {
            let mut line = format!(in alloc; "cost {cost} ")?.into_bytes();
            line.extend_from_slice(&found_reply(alloc, &Found::Drive(drive))?)?;
            Ok(line)
        }
        Shortest::NoNode(node) => found_reply(alloc, &Found::NoNode(node)),
        Shortest::Nowhere => found_reply(alloc, &Found::Nowhere),
    }
}

/// `certificate LEN` with so many bytes behind it, or `no-node N`.
pub fn cheapest_reply(alloc: Global, cheapest: &Cheapest) -> Result<Reply, NoMemory>
    ensures { IfOk result (λ r. said r ≡ cheapest_said cheapest.now) }
{
    match cheapest {
        Cheapest::Route { potentials, .. } => certificate_reply(alloc, potentials),
        Cheapest::Nowhere { potentials } => certificate_reply(alloc, potentials),
        Cheapest::NoNode(node) => {
            let line = found_reply(alloc, &Found::NoNode(*node))?;
            Ok(line_alone(alloc, line))
        }
    }
}

/// The certificate's bytes, behind a line that tells how many there are.
fn certificate_reply(alloc: Global, potentials: &Potentials) -> Result<Reply, NoMemory>
    ensures { IfOk result (λ r. said r ≡ certified_said potentials.now) }
{
    let certificate = certificate(alloc, potentials.items())?;
    let line = certificate_head(alloc, &certificate)?;
    Ok(Reply {
        line,
        behind: certificate,
    })
}

/// How many bytes the certificate has.
fn certificate_head(alloc: Global, certificate: &[u8]) -> Result<Vec<u8>, NoMemory>
    ensures { IfOk result (λ line. line.items ≡ certificate_line certificate.now) }
{
    let length = certificate.len();
    Ok(format!(in alloc; "certificate {length}\n")?.into_bytes())
}

/// The bytes of what stands at each context, in order.
fn certificate(alloc: Global, potentials: &[Option<u128>]) -> Result<Vec<u8>, NoMemory>
    ensures { IfOk result (λ bytes. bytes.items ≡ certificate_bytes potentials.now) }
{
    let mut bytes = Vec::new(alloc);
    for potential in potentials {
        put_potential(*potential, &mut bytes)?;
    }
    Ok(bytes)
}

/// Appends what stands at one context.
fn put_potential(potential: Option<u128>, out: &mut Vec<u8>) -> Result<(), NoMemory>
    ensures { OnOk result (out.new.items ≡ out.old.items ++ potential_bytes potential) }
{
    let Some(number) = potential else {
        out.push(0)?;
        return Ok(());
    };
    out.push(1)?;
    out.extend_from_slice(&number.to_le_bytes())?;
    Ok(())
}
