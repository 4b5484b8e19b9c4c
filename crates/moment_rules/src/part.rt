//! A part of a conditional value.
ghost use Rattle.std.specs.Prelude.{◌≡◌, Some, None, IfSome, IfNone, reverse};
ghost use Rattle.access_profile.specs.Restricting.{behind_spaces, without_spaces};
ghost use Rattle.moment_rules.specs.Conditionals.{is_value, part_of, told_at, without_parentheses};

use crate::Moment;
use crate::conditions::applies;
use crate::cutting::one_or_two;

/// The text without the spaces in front.
fn behind_spaces(text: &str) -> &str
    ensures { result.now ≡ behind_spaces text.now }
{
    let mut rest = text;
    while let Some(behind) = rest.strip_prefix(' ') {
        rest = behind;
    }
    rest
}

/// The text without the spaces at its end.
fn before_spaces(text: &str) -> &str
    ensures { result.now ≡ reverse (behind_spaces (reverse text.now)) }
{
    let mut rest = text;
    while let Some(before) = rest.strip_suffix(' ') {
        rest = before;
    }
    rest
}

/// The text without the spaces on both sides.
fn without_spaces(text: &str) -> &str
    ensures { result.now ≡ without_spaces text.now }
{
    before_spaces(behind_spaces(text))
}

/// The text without the parentheses around it, if it stands in a pair of them.
fn without_parentheses(text: &str) -> &str
    ensures { result.now ≡ without_parentheses text.now }
{
    let Some(behind) = text.strip_prefix('(') else {
        return text;
    };
    match behind.strip_suffix(')') {
        Some(inner) => inner,
        None => text,
    }
}

/// Whether the text may be a value: it has a character, and no space.
fn is_value(text: &str) -> bool
    ensures { result ≡ is_value text.now }
{
    !text.is_empty() && !text.as_bytes().contains(&b' ')
}

/// What the part says, and whether its condition applies at the moment. None where the part isn't read.
#[tactic(auto, using(crate::proofs::PartCases::no_part, crate::proofs::PartCases::no_condition, crate::proofs::PartCases::no_value, crate::proofs::PartCases::part_unread, crate::proofs::PartCases::part_read))]
pub fn read_part(text: &str, at: Moment) -> Option<(&str, bool)>
    ensures some { IfSome result (λ said. told_at at (part_of text.now) ≡ Some (said.0.now, said.1)) }
    ensures none { IfNone result (part_of text.now ≡ None) }
{
    let (front, behind) = one_or_two(text, b'@')?;
    let value = without_spaces(front);
    if !is_value(value) {
        return None;
    }
    let applies = applies(without_parentheses(without_spaces(behind?)), at)?;
    Some((value, applies))
}
