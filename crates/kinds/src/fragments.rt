// The fragments: every whole number is a value, and the first few, from 0 on, are nameable.
ghost use Rattle.std.specs.Prelude.{◌≡◌, ◌<◌, map, refl};
ghost use Rattle.std.specs.List.{slice_get};
ghost use Rattle.kinds.specs.Fragments.{bit, fragments, keeps, named, narrowed, numbers, without};
ghost use Rattle.kinds.specs.Names.{names};
ghost use Rattle.kinds.specs.FragmentLaws.{fragments_laws};

use crate::fragments::fragment::{Fragment, Name, NameSet};
use crate::kind::Kind;

pub mod fragment;
pub mod printing;

/// The kind of the fragments.
pub struct Fragments;

// How many numbers are nameable.
const NAMES: u32 = 64;

impl NameSet {
    // Whether the set has the nameable number k.
    fn has(self, k: u32) -> bool
        requires { k < names }
        ensures { result ≡ bit self.bits k }
    {
        (self.bits >> k) % 2 == 1
    }

    // The box of the i-th number of the set, ascending.
    fn nth(self, i: usize) -> Option<Fragment>
        ensures { result ≡ slice_get (map named (numbers self.bits)) i }
    {
        (0..NAMES)
            .filter(|k| self.has(*k))
            .nth(i)
            .map(Fragment::named)
    }
}

impl Fragment {
    // The box of one number.
    fn named(n: u32) -> Fragment
        requires { n < names }
        ensures { result ≡ named n }
    {
        Fragment::Only(Name { number: n })
    }

    // The box of all values but those of the set.
    fn without(bits: u64) -> Fragment
        ensures { result ≡ without bits }
    {
        Fragment::Except(NameSet { bits })
    }

    // Whether the box allows the number of a name.
    fn allows(&self, name: Name) -> bool
        ensures { result ≡ keeps self.now name.number }
    {
        match *self {
            Fragment::Only(x) => x == name,
            Fragment::Except(s) => !s.has(name.number),
        }
    }

    // This box narrowed to one name, if it allows that.
    fn narrowed(&self, name: Name) -> Option<Fragment>
        ensures { result ≡ narrowed self.now name }
    {
        self.allows(name).then_some(Fragment::Only(name))
    }
}

impl Kind for Fragments {
    type Box = Fragment;

    const PIECES: usize = NAMES as usize;

    ghost PIECES = { fragments.most };

    ghost model = { fragments };

    ghost most_pieces = { refl };

    ghost lawful = { fragments_laws };

    fn takes(n: u32) -> bool {
        n < NAMES
    }

    fn one(n: u32) -> Option<Fragment> {
        Self::takes(n).then(|| Fragment::named(n))
    }

    fn all() -> Fragment {
        Fragment::without(0)
    }

    fn meet(a: &Fragment, b: &Fragment) -> Option<Fragment> {
        match (*a, *b) {
            (Fragment::Only(x), _) => b.narrowed(x),
            (Fragment::Except(_), Fragment::Only(y)) => a.narrowed(y),
            (Fragment::Except(s), Fragment::Except(t)) => {
                Some(Fragment::without(s.bits | t.bits))
            }
        }
    }

    fn piece(b: &Fragment, i: usize) -> Option<Fragment> {
        match *b {
            Fragment::Only(x) => (i == 0).then(|| Fragment::without(1 << x.number)),
            Fragment::Except(s) => s.nth(i),
        }
    }

    // As for spans: fragments that differ allow different values.
    fn same(a: &Fragment, b: &Fragment) -> bool {
        a == b
    }
}
