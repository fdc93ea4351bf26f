// The amounts: the numbers from 0 to the highest, all of them nameable.
ghost use Rattle.std.specs.Prelude.{◌≡◌, ◌≤◌, refl};
ghost use Rattle.kinds.specs.Amounts.{amounts, span};
ghost use Rattle.kinds.specs.AmountLaws.{amounts_laws};

use crate::amounts::span::Span;
use crate::kind::Kind;

pub mod printing;
pub mod span;

/// The kind of the amounts.
pub struct Amounts;

// The highest amount.
const HIGHEST: u32 = u32::MAX;

impl Span {
    // The amounts from `low` to `high`.
    #[tactic(auto, using(crate::proofs::Spans::span_is))]
    fn new(low: u32, high: u32) -> Span
        requires { low ≤ high }
        ensures { result ≡ span low high }
    {
        Span { low, high }
    }
}

impl Kind for Amounts {
    type Box = Span;

    const PIECES: usize = 2;

    ghost PIECES = { amounts.most };

    ghost model = { amounts };

    ghost most_pieces = { refl };

    ghost lawful = { amounts_laws };

    fn takes(n: u32) -> bool {
        n <= HIGHEST
    }

    fn one(n: u32) -> Option<Span> {
        Self::takes(n).then(|| Span::new(n, n))
    }

    fn all() -> Span {
        Span::new(0, HIGHEST)
    }

    fn meet(a: &Span, b: &Span) -> Option<Span> {
        let low = a.low.max(b.low);
        let high = a.high.min(b.high);
        (low <= high).then(|| Span::new(low, high))
    }

    fn piece(b: &Span, i: usize) -> Option<Span> {
        match (i, b.low.checked_sub(1)) {
            (0, Some(high)) => Some(Span::new(0, high)),
            // What lies above is the first piece where nothing lies below.
            (0, None) | (1, Some(_)) => b.high.checked_add(1).map(|low| Span::new(low, HIGHEST)),
            _ => None,
        }
    }

    // Spans that differ allow different values, so `==` is what the trait asks; boxes of another kind may not be so.
    fn same(a: &Span, b: &Span) -> bool {
        a == b
    }
}
