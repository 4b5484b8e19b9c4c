//! Tests of what is asked of a graph: drives and their rules, ways that can be reached, and drives of least cost.
#![tactic(auto)]

#[cfg(test)]
mod drive_queries_tests;
#[cfg(test)]
mod least_cost_tests;
#[cfg(test)]
mod step_cost_tests;
