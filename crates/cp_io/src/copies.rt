// Copying the front of one list of bytes into another.
ghost use Rattle.std.specs.Prelude.{◌≡◌, ◌+◌, ◌-◌, ◌≤◌, ◌++◌, length, min, take};

/// Copies bytes from the front of `from` to the front of `to`, as many as both hold and `most` at
/// most, and tells how many.
pub(crate) fn copy_front(from: &[u8], to: &mut [u8], most: usize) -> usize
    ensures count { result ≡ min (min most (length to.new)) (length from.now) }
    ensures front { take result to.new ≡ take result from.now }
{
    let count = most.min(to.len()).min(from.len());
    to[..count].copy_from_slice(&from[..count]);
    count
}

/// Copies bytes from the front of `from` to behind the first `len` bytes of `to`, as many as there
/// is room for and `most` at most, and tells how many.
pub(crate) fn copy_behind(from: &[u8], to: &mut [u8], len: usize, most: usize) -> usize
    requires { len ≤ length to.old }
    ensures count { result ≡ min (min most (length to.new - len)) (length from.now) }
    ensures front { take (len + result) to.new ≡ take len to.old ++ take result from.now }
{
    let (_, free) = to.split_at_mut(len);
    copy_front(from, free, most)
}
