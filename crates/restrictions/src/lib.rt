//! Turn restrictions: the words of one restriction, or the first cause for which it is of no use (OSM wiki,
//! Relation:restriction).
//!
//! `words` looks at each member a few times, whatever their number: it takes the time of so many look-ups in the
//! world, and of the references that repeat the first one at the beginning of a member way. Where the members fit
//! together it also goes along the via ways, and along the from and to ways that end at the via. Where via ways misfit
//! as they are listed, and the profile reverses, it looks once more at them in the reversed order. A restriction that
//! is of use has at most 16 members of each role and 1,024 steps on its via ways: so at most 1,024 words over each of
//! at most two runs of the via ways, and each word has at most 1,026 steps.
#![tactic(auto)]

mod causes;
mod end_steps;
mod first_cause;
mod line_ends;
mod passages;
mod relation_words;
mod roles;
mod runs;
mod spelling;
mod word_list;

pub use relation_words::{WordsError, words};
pub use road_model::Unusable;
pub use word_list::{Word, WordList};
