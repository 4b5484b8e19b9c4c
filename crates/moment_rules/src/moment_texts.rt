//! The moment that a text is, as a function of the text.
ghost use Rattle.std.specs.Prelude.{◌≡◌, ◌↔◌, ℕ, List, Option, IsSome, IfSome};
ghost use Rattle.moment_rules.specs.declared.moment.Moment.{Moment as MomentValue};
ghost use Rattle.moment_rules.specs.Moments.{IsMoment, weekday_of, minute_of_day};
ghost use Rattle.moment_rules.specs.MomentTexts.{moment_of};

/// A law: what is there exactly where the text is a moment's, and then has its day and its minute, is the one moment of
/// the text. So whoever takes `parse_moment` at its word has `moment_of`, a function of the text.
pub fn one_moment()
    ensures { (text : List ℕ) (found : Option MomentValue)
        → (IsSome found ↔ IsMoment text)
        → IfSome found (λ at. at.day ≡ weekday_of text)
        → IfSome found (λ at. at.minute ≡ minute_of_day text)
        → found ≡ moment_of text }
{}
