//! Parts of bytes.
ghost use Rattle.std.specs.Prelude.{◌≡◌, ◌≤◌, length, take, drop};

/// The first n bytes.
pub fn front(bytes: &[u8], n: usize) -> &[u8]
    requires { n ≤ length bytes.now }
    ensures value { result.now ≡ take n bytes.now }
    ensures len { length result.now ≡ n }
{
    &bytes[..n]
}

/// The bytes behind the first n ones.
pub fn behind(bytes: &[u8], n: usize) -> &[u8]
    requires { n ≤ length bytes.now }
    ensures { result.now ≡ drop n bytes.now }
{
    &bytes[n..]
}
