//! The texts of steps.
ghost use Rattle.std.specs.Prelude.{◌≡◌, ◌≤◌, ◌∷◌, ◌++◌, [], drop, OnOk, OnErr};
ghost use Rattle.reply_lines.specs.Texts.{dir_sign, step_bytes};

use crate::digits::{put_byte, put_decimal, put_signed};
use road_base::{Dir, NoMemory, Step};

/// More places than the longest step has.
const ROOM: usize = 48;

/// The sign of a direction.
fn dir_sign(dir: Dir) -> u8
    ensures { result ∷ [] ≡ dir_sign dir }
{
    match dir {
        Dir::Forward => b'+',
        Dir::Backward => b'-',
    }
}

/// Writes the step at the end of the room, and tells where it begins.
fn put_step(step: Step, room: &mut [u8; ROOM]) -> usize
    ensures within { result ≤ ROOM }
    ensures written { drop result room.new ≡ step_bytes step }
{
    let start = put_byte(dir_sign(step.dir), room, ROOM);
    let start = put_decimal(u64::from(step.index), room, start);
    let start = put_byte(b'.', room, start);
    let start = put_signed(step.way.0, room, start);
    put_byte(b'w', room, start)
}

/// Appends the step: `w12.3+` along way 12 from position 3, `w12.3-` against it.
pub fn step_text(step: Step, out: &mut Vec<u8>) -> Result<(), NoMemory>
    ensures ok { OnOk result (out.new.items ≡ out.old.items ++ step_bytes step) }
    ensures err { OnErr result (out.new.items ≡ out.old.items) }
{
    let mut room = [0u8; ROOM];
    let start = put_step(step, &mut room);
    out.extend_from_slice(&room[start..])?;
    Ok(())
}
