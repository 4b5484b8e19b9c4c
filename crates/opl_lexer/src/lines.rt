//! The ends of lines.
ghost use Rattle.std.specs.Prelude.{◌≡◌};
ghost use Rattle.opl_lexer.specs.Lines.{without_return};

/// The line without one carriage return at its end.
#[inline]
pub fn without_return(line: &[u8]) -> &[u8]
    ensures { result.now ≡ without_return line.now }
{
    match line {
        [front @ .., b'\r'] => front,
        _ => line,
    }
}
