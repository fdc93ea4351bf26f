// Whether a kind takes every number of a case's labels.
ghost use Rattle.std.specs.Prelude.{◌≡◌, map};
ghost use Rattle.flow.specs.Held.{label_of};
ghost use Rattle.std.specs.List.{list_all};

use flow::label::Label;
use kinds::kind::Kind;

// Whether every number is nameable.
fn all_taken<K: Kind>(numbers: &[u32]) -> bool
    ensures { result ≡ list_all K.model.nameable numbers.now }
{
    numbers.iter().all(
        |n| -> bool
            ensures { result ≡ K.model.nameable n.now }
        { K::takes(*n) },
    )
}

/// Whether every number that stands in a label is nameable.
pub fn labels_nameable<K: Kind>(labels: &[Label]) -> bool
    ensures { result ≡ list_all (λ l. list_all K.model.nameable l.values) (map label_of labels.now) }
{
    labels.iter().all(
        |label| -> bool
            ensures { result ≡ list_all K.model.nameable (label_of label.now).values }
        { all_taken::<K>(label.values.as_slice()) },
    )
}
