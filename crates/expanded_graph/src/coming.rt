//! A piece that comes to an intersection, with all that its contexts are found from.
use crate::endings::Ending;
use crate::intersections::Intersection;
use crate::states::States;
use road_base::NodeId;
use road_model::{Network, Profile, World};
use way_pieces::PieceSpan;

/// A piece that comes to an intersection from a node. The states are those on its way, and the endings those in which
/// contexts may end there.
#[derive(Drop)]
pub struct Coming<'a, M: World, P: Profile> {
    pub network: &'a Network<'a, M, P>,
    pub states: &'a States,
    pub endings: &'a [Ending],
    pub intersection: Intersection<'a>,
    pub span: PieceSpan,
    pub from: NodeId,
}
