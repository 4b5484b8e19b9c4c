//! The texts of faults.
ghost use Rattle.std.specs.Prelude.{◌≡◌, ◌++◌, IfOk, OnOk, OnErr, string_bytes};
ghost use Rattle.opl_objects.specs.StreamLines.{fault_at};
ghost use Rattle.opl_objects.specs.Texts.{kind_name, fault_bytes};

use crate::fault::Fault;
use opl_lexer::FaultKind;
use road_base::NoMemory;
use std::alloc::{AllocError, Global};

/// The name of a kind of fault, as replies and last lines have it.
pub fn kind_name(kind: FaultKind) -> &'static str
    ensures { result.now ≡ kind_name kind }
{
    match kind {
        FaultKind::NotUtf8 => "NotUtf8",
        FaultKind::UnknownLine => "UnknownLine",
        FaultKind::UnknownField => "UnknownField",
        FaultKind::Repeated => "Repeated",
        FaultKind::BadNumber => "BadNumber",
        FaultKind::BadEscape => "BadEscape",
        FaultKind::BadTag => "BadTag",
        FaultKind::BadMember => "BadMember",
        FaultKind::BadRef => "BadRef",
        FaultKind::BadCoordinate => "BadCoordinate",
        FaultKind::BadFlag => "BadFlag",
        FaultKind::NoVersion => "NoVersion",
        FaultKind::TooMany => "TooMany",
    }
}

/// Where the fault stands, and its kind.
fn placed(alloc: Global, fault: Fault) -> Result<String, AllocError>
    ensures { IfOk result (λ text. string_bytes text ≡ fault_bytes (fault_at fault)) }
{
    let Fault { line, field, kind } = fault;
    let kind = kind_name(kind);
    format!(in alloc; "line {line} field {field} {kind}")
}

/// Appends where a fault stands and its kind: `line L field F KIND`.
pub fn fault_text(fault: &Fault, out: &mut Vec<u8>) -> Result<(), NoMemory>
    ensures ok { OnOk result (out.new.items ≡ out.old.items ++ fault_bytes (fault_at fault.now)) }
    ensures err { OnErr result (out.new.items ≡ out.old.items) }
{
    let text = placed(*out.allocator(), *fault)?;
    out.extend_from_slice(text.as_bytes())?;
    Ok(())
}
