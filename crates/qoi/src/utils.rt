//! Helpers on slices and values.
ghost use Rattle.std.specs.Prelude.{◌≡◌, ◌+◌, ◌≤◌, length, drop, if◌then◌else◌};
ghost use Rattle.qoi.specs.Writers.{StandsAfter};

/// The bytes after the first `n`.
#[inline(always)]
pub(crate) fn skip(bytes: &[u8], n: usize) -> &[u8]
    requires { n ≤ length bytes.now }
    ensures { result.now ≡ drop n bytes.entry.now }
{
    let (_, rest) = bytes.split_at(n);
    rest
}

/// Writes bytes after the first `written` ones of a buffer, and returns where they end.
#[inline(always)]
pub(crate) fn copy_after(buf: &mut [u8], written: usize, v: &[u8]) -> usize
    requires { written + length v.now ≤ length buf.old }
    ensures { StandsAfter buf.old written v.now buf.new result }
{
    let end = written + v.len();
    buf[written..end].copy_from_slice(v);
    end
}

/// The first value or the other one. As both are at hand, no jump is needed.
#[inline(always)]
pub(crate) fn pick<T: Copy>(first: bool, one: T, other: T) -> T
    ensures { result ≡ if first then one else other }
{
    if first { one } else { other }
}
