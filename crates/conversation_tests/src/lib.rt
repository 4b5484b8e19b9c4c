//! Tests of the libraries that read what a session is told, and spell what it replies.
#![tactic(auto)]

#[cfg(test)]
mod reply_lines_tests;
#[cfg(test)]
mod session_answers_tests;
#[cfg(test)]
mod session_input_tests;
