// The box of the fragments.
ghost use Rattle.std.specs.Prelude.{◌^◌, ◌<◌};
ghost use Rattle.kinds.specs.Names.{names};

/// A nameable number.
#[derive(Clone, Copy, PartialEq, Eq, Debug)]
pub struct Name {
    pub number: u32,
    ghost nameable: { number < names },
}

/// A set of nameable numbers: bit k stands for the number k.
#[derive(Clone, Copy, PartialEq, Eq, Debug)]
pub struct NameSet {
    pub bits: u64,
    ghost nameable: { bits < 2 ^ names },
}

/// One nameable number, or all values but some nameable ones.
#[derive(Clone, Copy, PartialEq, Eq, Debug)]
pub enum Fragment {
    Only(Name),
    Except(NameSet),
}
