// Numbers in place, at most N of them.
ghost use Rattle.std.specs.Prelude.{◌≤◌};

mod copying;
mod methods;

/// A list of at most N numbers: the first `count` of the places count. No `Vec`: it is copied with what holds it, and
/// wants no memory. No derived comparison: it would look at the places beyond the count too.
#[derive(Clone, Copy)]
pub struct Numbers<const N: usize> {
    places: [u32; N],
    count: usize,
    ghost few: { count ≤ N },
}

/// There are more numbers than places.
#[derive(Clone, Copy, PartialEq, Eq, Debug)]
pub struct TooMany;
