//! Tests of the libraries that say what tags mean to a profile: tables of tags with what the rules answer to each, and
//! conditional tags at moments.
#![tactic(auto)]

#[cfg(test)]
mod access_profile_tests;
#[cfg(test)]
mod at_moment_tests;
#[cfg(test)]
mod barrier_rules_tests;
#[cfg(test)]
mod moment_tests;
#[cfg(test)]
mod oneway_rules_tests;
#[cfg(test)]
mod zone_tests;
