//! The texts of verdicts.
ghost use Rattle.std.specs.Prelude.{◌≡◌, ◌++◌, IfOk, OnOk, OnErr, codes, string_bytes};
ghost use Rattle.std.specs.Fmt.{signed_decimal};
ghost use Rattle.reply_lines.specs.Texts.{side_name, closing_key, rule_bytes, verdict_bytes};

use drive_queries::{Rule, Verdict};
use road_base::{Dir, NoMemory};
use road_model::ClosedBy;
use std::alloc::{AllocError, Global};

/// What stands behind a key that closes one direction alone.
fn side_name(side: Option<Dir>) -> &'static str
    ensures { result.now ≡ side_name side }
{
    match side {
        None => "",
        Some(Dir::Forward) => ":forward",
        Some(Dir::Backward) => ":backward",
    }
}

/// The key that closes a direction, as tags hold it.
fn closing_key(alloc: Global, closed: ClosedBy) -> Result<String, AllocError>
    ensures { IfOk result (λ text. string_bytes text ≡ closing_key closed) }
{
    match closed {
        ClosedBy::Area => String::from_str(alloc, "area"),
        ClosedBy::Highway => String::from_str(alloc, "highway"),
        ClosedBy::Deciding { name, side } => {
            let key = name.as_str();
            let side = side_name(side);
            format!(in alloc; "{key}{side}")
        }
        ClosedBy::Conditional { name, side } => {
            let key = name.as_str();
            let side = side_name(side);
            format!(in alloc; "{key}{side}:conditional")
        }
    }
}

/// The name of a rule, and what it names.
fn numbered(alloc: Global, name: &str, number: i64) -> Result<String, AllocError>
    ensures { IfOk result (λ text. string_bytes text ≡ name.now ++ (codes " " ++ signed_decimal number)) }
{
    format!(in alloc; "{name} {number}")
}

/// The rule, with what it names.
fn rule_text(alloc: Global, rule: Rule) -> Result<String, AllocError>
    ensures { IfOk result (λ text. string_bytes text ≡ rule_bytes rule) }
{
    match rule {
        Rule::NoStep => String::from_str(alloc, "no-step"),
        Rule::NoNode(node) => numbered(alloc, "no-node", node.0),
        Rule::Closed(closed) => {
            let key = closing_key(alloc, closed)?;
            format!(in alloc; "closed {key}")
        }
        Rule::WrongWay => String::from_str(alloc, "wrong-way"),
        Rule::Apart => String::from_str(alloc, "apart"),
        Rule::Barrier(node) => numbered(alloc, "barrier", node.0),
        Rule::Reversal(node) => numbered(alloc, "reversal", node.0),
        Rule::No(relation) => numbered(alloc, "no", relation.0),
        Rule::Only(relation) => numbered(alloc, "only", relation.0),
    }
}

/// The verdict.
fn said(alloc: Global, verdict: Verdict) -> Result<String, AllocError>
    ensures { IfOk result (λ text. string_bytes text ≡ verdict_bytes verdict) }
{
    match verdict {
        Verdict::Legal => String::from_str(alloc, "legal"),
        Verdict::Broken { step, rule } => {
            let rule = rule_text(alloc, rule)?;
            format!(in alloc; "broken {step} {rule}")
        }
    }
}

/// Appends the verdict: `legal`, or `broken K RULE` with the number of the step and the rule.
pub fn verdict_text(verdict: &Verdict, out: &mut Vec<u8>) -> Result<(), NoMemory>
    ensures ok { OnOk result (out.new.items ≡ out.old.items ++ verdict_bytes verdict.now) }
    ensures err { OnErr result (out.new.items ≡ out.old.items) }
{
    let text = said(*out.allocator(), *verdict)?;
    out.extend_from_slice(text.as_bytes())?;
    Ok(())
}
