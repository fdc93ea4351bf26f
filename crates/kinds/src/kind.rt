// What every kind of value answers, and what follows for all of them.
ghost use Rattle.std.specs.Prelude.{◌≡◌, ℕ};
ghost use Rattle.std.specs.List.{slice_get};
ghost use Rattle.kinds.specs.Consequences.{Consequences};
ghost use Rattle.kinds.specs.Laws.{Laws};
ghost use Rattle.kinds.specs.Model.{Model};

/// A kind of value. Its boxes are sets of values, none of them empty.
pub trait Kind {
    /// The kind's sort of box.
    type Box: Copy;

    /// The most pieces that a box can have.
    const PIECES: usize;

    ghost PIECES: { ℕ };

    // What the calls below answer.
    ghost model: { Model Self.Box };

    /// Whether a label may name the number.
    fn takes(n: u32) -> bool
        ensures { result ≡ model.nameable n };

    /// The box that allows the number alone, or none where the number is not nameable.
    fn one(n: u32) -> Option<Self::Box>
        ensures { result ≡ model.one n };

    /// The box that allows every value.
    fn all() -> Self::Box
        ensures { result ≡ model.all };

    /// The box that allows the values in both, or none where no value is in both.
    fn meet(a: &Self::Box, b: &Self::Box) -> Option<Self::Box>
        ensures { result ≡ model.meet a.now b.now };

    /// The i-th of the boxes that together allow what `b` does not, or none past the last.
    fn piece(b: &Self::Box, i: usize) -> Option<Self::Box>
        ensures { result ≡ slice_get (model.pieces b.now) i };

    /// Whether both boxes allow the same values.
    // Not `==`, which says how boxes are held: a kind may hold one set of values in two ways.
    fn same(a: &Self::Box, b: &Self::Box) -> bool
        ensures { result ≡ model.same a.now b.now };

    // PIECES is the model's number.
    ghost most_pieces: { PIECES ≡ model.most };

    // The model is a kind.
    ghost lawful: { Laws model };
}

/// Does nothing: its contract is the theorem that the laws of a kind give all that the matcher builds on.
pub fn laws_suffice<K: Kind>()
    ensures { Consequences K.model }
{}
