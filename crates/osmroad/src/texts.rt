//! The lines that are last put.
ghost use Rattle.std.specs.Prelude.{◌≡◌, ◌++◌, ◌∷◌, [], codes, IfOk, string_bytes, ℕ};
ghost use Rattle.std.specs.Fmt.{decimal};
ghost use Rattle.osmroad.specs.Texts.{created_line, applied_line, sequence_line};
ghost use Rattle.osmroad.specs.Texts.{checkpoint_line, raise_line, file_letter, damaged_line};

use road_base::Sequence;
use road_io::Which;
use std::alloc::{AllocError, Global};

/// The line where a store is made.
pub fn created_text(alloc: Global, number: Sequence) -> Result<String, AllocError>
    ensures { IfOk result (λ text. string_bytes text ≡ created_line number.0) }
{
    let number = number.0;
    format!(in alloc; "created {number}\n")
}

/// The line where a change is applied.
pub fn applied_text(alloc: Global, number: Sequence) -> Result<String, AllocError>
    ensures { IfOk result (λ text. string_bytes text ≡ applied_line number.0) }
{
    let number = number.0;
    format!(in alloc; "applied {number}\n")
}

/// The line where a checkpoint is written.
pub fn checkpoint_text(alloc: Global, number: Sequence) -> Result<String, AllocError>
    ensures { IfOk result (λ text. string_bytes text ≡ checkpoint_line number.0) }
{
    let number = number.0;
    format!(in alloc; "checkpoint {number}\n")
}

/// The line where a store is raised.
pub fn raise_text(alloc: Global, number: Sequence) -> Result<String, AllocError>
    ensures { IfOk result (λ text. string_bytes text ≡ raise_line number.0) }
{
    let number = number.0;
    format!(in alloc; "profile 2 sequence {number}\n")
}

/// The line where a change has another number than the one behind the kept one.
pub fn sequence_text(alloc: Global, number: Sequence, kept: Sequence) -> Result<String, AllocError>
    ensures { IfOk result (λ text. string_bytes text ≡ sequence_line number.0 kept.0) }
{
    let number = number.0;
    let kept = kept.0;
    format!(in alloc; "sequence {number} kept {kept}\n")
}

fn file_letter(file: Which) -> &'static str
    ensures { result.now ≡ file_letter file }
{
    match file {
        Which::A => "a",
        Which::B => "b",
    }
}

/// The line where a file is damaged, with the place of the gate of its first part in fault.
pub fn damaged_text(alloc: Global, file: Which, offset: u64) -> Result<String, AllocError>
    ensures { IfOk result (λ text. string_bytes text ≡ damaged_line file offset) }
{
    let name = file_letter(file);
    format!(in alloc; "damaged {name} {offset}\n")
}
