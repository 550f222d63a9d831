// Parts of lists: the front of a list, its first `len` values or all where it has fewer; and rows of a list.
ghost use Rattle.std.specs.Prelude.{◌<◌};

pub fn part<T>(xs: &[T], len: usize) -> &[T] {
    let end = len.min(xs.len());
    &xs[..end]
}

pub fn part_mut<T>(xs: &mut [T], len: usize) -> &mut [T] {
    let end = len.min(xs.len());
    &mut xs[..end]
}

// How many numbers a row has; where it has none, all that there are count as its own.
pub fn columns(n: usize) -> usize
    ensures { 0 < result }
{
    if n == 0 { usize::MAX } else { n }
}
