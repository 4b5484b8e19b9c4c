//! What a conditional value says at a moment.
ghost use Rattle.std.specs.Prelude.{◌≡◌};
ghost use Rattle.moment_rules.specs.Conditionals.{said_at, said_by};

use crate::Moment;
use crate::cutting::cut;
use crate::part::read_part;

/// What a conditional value says at a moment.
#[derive(Clone, Copy)]
pub enum Reading<'a> {
    /// The value has a part that isn't read.
    Unread,
    /// The value is read, and no part of it applies.
    Quiet,
    /// The last part that applies says this.
    Value(&'a str),
}

/// What the value of a conditional key says at a moment, as `no @ (Mo-Fr 22:00-06:00); destination @ Su`: its parts
/// between semicolons, each a value and a condition behind an at sign, and of those that apply the last (OSM wiki,
/// Conditional restrictions). Unread exactly where some part isn't of this form; quiet exactly where all are and none
/// applies. Takes no memory, and time linear in the value's bytes.
pub fn read_conditional(value: &str, at: Moment) -> Reading<'_>
    ensures { said_by result ≡ said_at at value.now }
{
    let mut last = None;
    let mut rest = Some(value);
    while let Some(left) = rest {
        let (part, behind) = cut(left, b';');
        let Some((said, applies)) = read_part(part, at) else {
            return Reading::Unread;
        };
        if applies {
            last = Some(said);
        }
        rest = behind;
    }
    match last {
        Some(said) => Reading::Value(said),
        None => Reading::Quiet,
    }
}
