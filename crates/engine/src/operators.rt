// The operators, each over the lists of a lent table: it adds its rows to one list, and no other list changes.

// `P`.
pub mod predicate;

// `N`.
pub mod some_next;
