// A predicate with the variables that a line names.
ghost use Rattle.std.specs.Prelude.{◌≡◌, true, nat_lt};
ghost use Rattle.flow.specs.Limits.{variables as variable_count};
ghost use Rattle.std.specs.List.{list_all};

/// The operands of a `P` line.
#[derive(Clone, Copy, PartialEq, Eq, Debug)]
pub struct Atom<'a> {
    pub predicate: u32,
    pub variables: &'a [u32],
    ghost small: { list_all (λ x. nat_lt x variable_count) variables.now ≡ true },
}
