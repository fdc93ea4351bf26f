// The arguments of a predicate, at most three: the values of a label, or the variables of a line.
use crate::limits::MOST_ARGUMENTS;
use stores::numbers::Numbers;

pub type Arguments = Numbers<MOST_ARGUMENTS>;
