// A label of a flow graph: a predicate with its values, on a state.
ghost use Rattle.std.specs.Prelude.{◌≡◌};
ghost use Rattle.std.specs.Cmp.{and_per, nat_eq_equiv, on_per, partial_equiv_from_equiv};
ghost use Rattle.std.specs.Cmp.Lexicographic.{nat_list_eq_equiv};
ghost use Rattle.flow.specs.Drawn.{is_label};
ghost use Rattle.flow.specs.Held.{label_of};
ghost use Rattle.stores.specs.Listed.{listed};

use crate::arguments::Arguments;

#[derive(Clone, Copy)]
pub struct Label {
    pub state: u32,
    pub predicate: u32,
    pub values: Arguments,
}

// By hand: a derived comparison would compare the places beyond the count of the values too.
impl PartialEq for Label {
    ghost eq = { λ label other. is_label other.state other.predicate (listed other.values) (label_of label) };

    ghost laws = { let numbers = partial_equiv_from_equiv nat_eq_equiv in
        let lists = partial_equiv_from_equiv nat_list_eq_equiv in
        and_per (on_per (λ l. l.state) numbers)
        (and_per (on_per (λ l. l.predicate) numbers) (on_per (λ l. listed l.values) lists)) };

    fn eq(&self, other: &Label) -> bool {
        self.state == other.state
            && self.predicate == other.predicate
            && self.values.as_slice() == other.values.as_slice()
    }
}
