//! The replies to frames.
ghost use Rattle.std.specs.Prelude.{◌≡◌, IfOk, string_bytes};
ghost use Rattle.opl_objects.specs.StreamLines.{fault_at};
ghost use Rattle.session_answers.specs.Texts.{applied_line, refused_sequence_line, refused_fault_line, unfinished_line};

use opl_objects::{Fault, fault_text};
use road_base::{NoMemory, Sequence};
use std::alloc::Global;

/// `applied N`: the frame is accepted and kept.
pub fn applied(alloc: Global, number: Sequence) -> Result<Vec<u8>, NoMemory>
    ensures { IfOk result (λ line. line.items ≡ applied_line number.0) }
{
    let number = number.0;
    Ok(format!(in alloc; "applied {number}\n")?.into_bytes())
}

/// `refused N sequence KEPT`: the frame's number isn't the one behind the kept one.
pub fn refused_sequence(
    alloc: Global,
    number: Sequence,
    kept: Sequence,
) -> Result<Vec<u8>, NoMemory>
    ensures { IfOk result (λ line. line.items ≡ refused_sequence_line number.0 kept.0) }
{
    let number = number.0;
    let kept = kept.0;
    Ok(format!(in alloc; "refused {number} sequence {kept}\n")?.into_bytes())
}

/// `refused N line L field F KIND`: the first fault of the frame's lines.
pub fn refused_fault(alloc: Global, number: Sequence, fault: &Fault) -> Result<Vec<u8>, NoMemory>
    ensures { IfOk result (λ line. line.items ≡ refused_fault_line number.0 (fault_at fault.now)) }
{
    let number = number.0;
    let mut line = format!(in alloc; "refused {number} ")?.into_bytes();
    fault_text(fault, &mut line)?;
    line.push(b'\n')?;
    Ok(line)
}

/// `refused unfinished N`: the input ends inside the frame.
pub fn unfinished(alloc: Global, number: Sequence) -> Result<Vec<u8>, NoMemory>
    ensures { IfOk result (λ line. line.items ≡ unfinished_line number.0) }
{
    let number = number.0;
    Ok(format!(in alloc; "refused unfinished {number}\n")?.into_bytes())
}
