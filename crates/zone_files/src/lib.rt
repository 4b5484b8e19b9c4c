//! Destination traffic in a graph file: whoever walks over its bytes, and by the marks of the pieces alone keeps beside
//! each context how far the drive is between zones, goes through no zone, and can make every such drive.
//!
//! Nothing runs here: the crate has laws alone (OSM wiki, Key:access, destination).
#![tactic(auto)]

pub mod laws;
