//! Texts that are written from their end into a room on the stack.
ghost use Rattle.std.specs.Prelude.{◌≡◌, ◌+◌, ◌<◌, ◌≤◌, ◌∷◌, ◌++◌, length, drop};
ghost use Rattle.std.specs.Fmt.{decimal, signed_decimal};

/// Writes the byte in front of what stands from `end` on, and tells where it stands.
#[inline]
pub fn put_byte(byte: u8, room: &mut [u8], end: usize) -> usize
    requires some { 0 < end }
    requires within { end ≤ length room.old }
    ensures start { result + 1 ≡ end }
    ensures written { drop result room.new ≡ byte ∷ drop end room.old }
{
    let start = end - 1;
    room[start] = byte;
    start
}

/// Writes the digits in front of what stands from `end` on, and tells where they begin: at most 20 places before.
pub fn put_decimal(number: u64, room: &mut [u8], end: usize) -> usize
    requires front { 20 ≤ end }
    requires within { end ≤ length room.old }
    ensures start { end ≤ result + 20 }
    ensures before { result ≤ end }
    ensures written { drop result room.new ≡ decimal number ++ drop end room.old }
{
    let mut left = number;
    let mut start = end;
    while 10 <= left {
        start = put_byte(b'0' + (left % 10) as u8, room, start);
        left /= 10;
    }
    put_byte(b'0' + left as u8, room, start)
}

/// The same of a number with a sign: at most 21 places before.
pub fn put_signed(number: i64, room: &mut [u8], end: usize) -> usize
    requires front { 21 ≤ end }
    requires within { end ≤ length room.old }
    ensures start { end ≤ result + 21 }
    ensures before { result ≤ end }
    ensures written { drop result room.new ≡ signed_decimal number ++ drop end room.old }
{
    let start = put_decimal(number.unsigned_abs(), room, end);
    if 0 <= number {
        return start;
    }
    put_byte(b'-', room, start)
}
