//! Lines that are last put.
ghost use Rattle.std.specs.Prelude.{◌≡◌, IfOk, string_bytes};
ghost use Rattle.opl_objects.specs.StreamLines.{fault_at};
ghost use Rattle.last_words.specs.Texts.{refused_line};

use opl_objects::{Fault, kind_name};
use std::alloc::{AllocError, Global};

/// The last line where an input is in fault.
pub fn refused_text(alloc: Global, fault: &Fault) -> Result<String, AllocError>
    ensures { IfOk result (λ text. string_bytes text ≡ refused_line (fault_at fault.now)) }
{
    let Fault { line, field, kind } = *fault;
    let name = kind_name(kind);
    format!(in alloc; "refused line {line} field {field} {name}\n")
}
