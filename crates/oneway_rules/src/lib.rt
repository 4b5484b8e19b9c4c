//! In which directions oneway lets a car go along a way (OSM wiki, Key:oneway).
//!
//! A call looks up three keys at most among the tags, each at the cost of `Tags::get`, and takes no memory.
#![tactic(auto)]

ghost use Rattle.std.specs.Prelude.{◌≡◌};
ghost use Rattle.oneway_rules.specs.Oneway.{flow_of, is_oneway_road, lets, oneway_allows, said_by, usual_flow};

use road_base::{Dir, Tags};

/// The directions that are allowed.
#[derive(Clone, Copy)]
enum Flow {
    Both,
    Along,
    Against,
    Neither,
}

/// Whether oneway allows the direction. Where `oneway` is absent or has a value that says nothing, a roundabout, a
/// circular junction and a motorway are driven along the way alone, and every other way in both directions.
#[tactic(auto, unfolding(crate::specs::Oneway::oneway_allows))]
pub fn oneway(tags: &Tags, dir: Dir) -> bool
    ensures { result ≡ oneway_allows tags.now dir }
{
    match (flow_of(tags), dir) {
        (Flow::Both, _) => true,
        (Flow::Along, Dir::Forward) | (Flow::Against, Dir::Backward) => true,
        (Flow::Along, Dir::Backward) | (Flow::Against, Dir::Forward) => false,
        (Flow::Neither, _) => false,
    }
}

#[tactic(auto, unfolding(crate::specs::Oneway::flow_of))]
fn flow_of(tags: &Tags) -> Flow
    ensures { result ≡ flow_of tags.now }
{
    let Some(value) = tags.get("oneway") else {
        return usual_flow(tags);
    };
    match said_by(value) {
        Some(flow) => flow,
        None => usual_flow(tags),
    }
}

/// What a value of `oneway` says, None where it says nothing.
fn said_by(value: &str) -> Option<Flow>
    ensures { result ≡ said_by value.now }
{
    match value {
        "yes" | "true" | "1" => Some(Flow::Along),
        "-1" | "reverse" => Some(Flow::Against),
        "no" | "false" | "0" | "alternating" => Some(Flow::Both),
        "reversible" => Some(Flow::Neither),
        _ => None,
    }
}

fn usual_flow(tags: &Tags) -> Flow
    ensures { result ≡ usual_flow tags.now }
{
    if is_oneway_road(tags) {
        Flow::Along
    } else {
        Flow::Both
    }
}

#[tactic(auto, unfolding(crate::specs::Oneway::is_oneway_road))]
fn is_oneway_road(tags: &Tags) -> bool
    ensures { result ≡ is_oneway_road tags.now }
{
    matches!(tags.get("junction"), Some("roundabout" | "circular"))
        || matches!(tags.get("highway"), Some("motorway"))
}
