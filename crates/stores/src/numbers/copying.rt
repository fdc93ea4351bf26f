// Numbers taken from a slice.
ghost use Rattle.std.specs.Prelude.{◌≡◌};
ghost use Rattle.stores.specs.Listed.{Copies};

use crate::numbers::{Numbers, TooMany};

impl<'a, const N: usize> TryFrom<&'a [u32]> for Numbers<N> {
    type Error = TooMany;

    ghost try_from_gives = { λ from result. Copies from.now result };

    fn try_from(from: &'a [u32]) -> Result<Numbers<N>, TooMany> {
        if from.len() > N {
            return Err(TooMany);
        }
        let mut places = [0; N];
        places[..from.len()].copy_from_slice(from);
        Ok(Numbers {
            places,
            count: from.len(),
        })
    }
}
