//! The block of a way: its pieces with their marks and the nodes that they pass, their contexts, the arcs by which one
//! drives on, and the sources, from which arcs lead to a context.
//!
//! `build_block` has the block of one way, `GraphBuilder` those of many. What blocks have in common is found once, when
//! the builder is made, and nothing is added while blocks are built: the given ways cut into pieces, each once, with
//! their lines (`way_pieces::RoadPieces`), and the pieces of the ways that meet them; one automaton (`turn_automata`)
//! of the words of restrictions that matter on the given ways and on those that meet them; its states in which contexts
//! of two pieces or more may end, sorted by the piece that they end with; and for each node where pieces of given ways
//! start or end, what its tags say, what leaves it and what comes there. Of what comes it is told whether it is plain:
//! no word begins with its last step, and its only context is the piece alone. Of a node it is told whether it is free:
//! whoever comes there in the automaton's first state finds an arc to the piece alone by each departure that may
//! follow. A way that meets given ones is cut as well, but not where its block is known (`KnownBlocks`): that lists its
//! pieces. So where few blocks of a graph are built anew, their neighbours' lines aren't read. A builder for all roads
//! keeps no lines. `build_block` finds all this for its way alone, and knows no blocks.
//!
//! `bare_block` leaves the sources out: whoever compares blocks by their arcs alone, or finds the sources from these,
//! needs none. A builder made by `bare` finds nothing of what comes to nodes, and watches for the words near the given
//! ways alone.
//!
//! The words that matter are those of the relations of the watched ways, and of the ways on which these words have
//! steps; each relation is judged once. Each state of the automaton is looked at once, in the time of the references of
//! the ways of its last two steps, and where the last one turns back, of all ways at the node there: whether its steps
//! may be driven, the piece that the last one ends, and how many pieces they spell. All this takes the time to cut the
//! ways, to read and sort the pieces of known blocks, to judge the relations and to sort, for each piece that leaves a
//! node one step of the automaton, and for each that comes to one as much and the logarithm of the number of endings,
//! and memory of the order of the pieces of these ways, of the lines that were kept, of what leaves and comes to the
//! nodes where pieces start or end, and of the states.
//!
//! A block then takes one look-up for each node of the way's line, where that wasn't kept, a short search for each node
//! where a piece starts or ends, and for each piece one step of the automaton and the logarithm of the number of
//! endings. Each context goes through all that leaves the node where it ends. Where the node is free and the context
//! leaves the automaton in its first state, that is all; else it takes a step of the automaton for each departure that
//! may follow: the state behind that step tells whether there is an arc, and where it leads. The sources of a piece are
//! looked for among all that comes to the node where it starts: from a plain piece that may go on so they take no step
//! of the automaton where the node is free, and from each other one that may, one step, the logarithm of the number of
//! endings, and one such step for each of its contexts. What leads to the piece is sorted, but not where the node is
//! free and all that may go on so is plain: then these pieces are the sources, in their order. All else takes time and
//! memory of the order of the block.
#![tactic(auto)]

mod arcs;
mod arrivals;
mod attached;
mod block;
mod builder;
mod coming;
mod contexts;
mod endings;
mod intersections;
mod last_steps;
mod marks;
mod names;
mod none_known;
mod pieces;
mod places;
mod plain;
mod sourced;
mod sources;
mod states;
mod tables;
mod watched;
mod words;

pub use block::build_block;
pub use builder::GraphBuilder;
pub use none_known::NoneKnown;
