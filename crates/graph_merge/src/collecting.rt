//! The blocks of graphs that stand one behind another.
ghost use Rattle.std.specs.Prelude.{◌≡◌, ◌+◌, ◌<◌, ℕ, List, length, IfOk, IfErr, IfSome, IfNone};
ghost use Rattle.graph_merge.specs.Merging.{IsRefusedFor, IfFault, HasNoFront};
ghost use Rattle.graph_merge.specs.Collecting.{HasFront, HasAll, HasNone};

use crate::faults::{MergeError, MergeFault};
use graph_file::Graph;
use road_base::NoMemory;
use road_model::Block;
use std::alloc::Global;

/// The blocks of graphs of one version and one profile, as they stand one behind the other.
#[derive(Drop)]
pub struct CollectedGraphs {
    pub version: u32,
    pub profile: u32,
    pub blocks: Vec<Block>,
}

impl CollectedGraphs {
    /// The blocks of the graph that the bytes begin with, and what stands behind it; None exactly where they begin with
    /// none.
    fn first(alloc: Global, bytes: &[u8]) -> Result<Option<(CollectedGraphs, &[u8])>, NoMemory>
        ensures some { IfOk result (λ r. IfSome r (λ x. HasFront 1 x.0 bytes.now x.1.now)) }
        ensures none { IfOk result (λ r. IfNone r (HasNoFront bytes.now)) }
    {
        match Graph::read_front(alloc, bytes) {
            Ok(Some((graph, rest))) => {
                let collected = CollectedGraphs {
                    version: graph.version,
                    profile: graph.profile,
                    blocks: graph.blocks.into_list(),
                };
                Ok(Some((collected, rest)))
            }
            Ok(None) => Ok(None),
            Err(error) => Err(error),
        }
    }

    /// Adds the blocks of the graph that the bytes begin with, and answers what stands behind it; None exactly where
    /// they begin with no graph of this version and profile.
    fn add_next<'a>(&mut self, alloc: Global, bytes: &'a [u8]) -> Result<Option<&'a [u8]>, NoMemory>
        ensures version { self.new.version ≡ self.old.version }
        ensures profile { self.new.profile ≡ self.old.profile }
        ensures some { IfOk result (λ r. IfSome r (λ rest. (count : ℕ) (all : List ℕ)
            → HasFront count self.old all bytes.now
            → HasFront (count + 1) self.new all rest.now)) }
        ensures shorter { IfOk result (λ r. IfSome r (λ rest. length rest.now < length bytes.now)) }
        ensures none { IfOk result (λ r. IfNone r (HasNone self.old.version self.old.profile bytes.now)) }
    {
        match Graph::read_front(alloc, bytes) {
            Ok(Some((graph, rest))) => {
                if graph.version != self.version {
                    return Ok(None);
                }
                if graph.profile != self.profile {
                    return Ok(None);
                }
                let mut list = graph.blocks.into_list();
                self.blocks.append(&mut list)?;
                Ok(Some(rest))
            }
            Ok(None) => Ok(None),
            Err(error) => Err(error),
        }
    }
}

/// The blocks of all graphs in the bytes, or which graph is the first that doesn't go with those before it.
pub fn collect(alloc: Global, bytes: &[u8]) -> Result<CollectedGraphs, MergeError>
    ensures ok { IfOk result (λ g. HasAll g bytes.now) }
    ensures fault { IfErr result (IfFault (λ fault. IsRefusedFor fault bytes.now)) }
{
    match CollectedGraphs::first(alloc, bytes) {
        Ok(Some((collected, rest))) => collect_rest(alloc, collected, bytes, rest),
        Ok(None) => Err(MergeError::Fault(MergeFault::Graph(1))),
        Err(NoMemory) => Err(MergeError::NoMemory),
    }
}

/// The same, where the first graph was read.
fn collect_rest(
    alloc: Global,
    first: CollectedGraphs,
    bytes: &[u8],
    behind: &[u8],
) -> Result<CollectedGraphs, MergeError>
    requires { HasFront 1 first bytes.now behind.now }
    ensures ok { IfOk result (λ g. HasAll g bytes.now) }
    ensures fault { IfErr result (IfFault (λ fault. IsRefusedFor fault bytes.now)) }
{
    let mut collected = first;
    let mut rest = behind;
    let mut count: u64 = 1;
    while rest.len() > 0 {
        match collected.add_next(alloc, rest) {
            Ok(Some(next)) => rest = next,
            Ok(None) => return Err(MergeError::Fault(MergeFault::Graph(count + 1))),
            Err(NoMemory) => return Err(MergeError::NoMemory),
        }
        count += 1;
    }
    Ok(collected)
}
