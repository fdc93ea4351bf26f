// What can be wrong with a record.
ghost use Rattle.std.specs.Prelude.{◌≡◌};
ghost use Rattle.records.specs.Faults.{fault_field, fault_number};

/// The faults. Of several in one record the first of these is told.
#[derive(Clone, Copy, PartialEq, Eq, Debug)]
pub enum Fault {
    /// A stray CR, LF or quote.
    Broken,
    /// No known letter, a wrong count of fields, or an operator that is not one byte.
    Form,
    /// A call that belongs to the other phase.
    Phase,
    /// A field that should be a number and is not: the leftmost.
    Number { field: u32 },
}

impl Fault {
    /// The number by which the fault is told.
    // By a match: `as` gives the numbers of an enum only where no variant has a field.
    pub fn number(self) -> u8
        ensures { result ≡ fault_number self }
    {
        match self {
            Fault::Form => 20,
            Fault::Number { .. } => 21,
            Fault::Phase => 22,
            Fault::Broken => 23,
        }
    }

    /// The number of the field at fault, or 0 where the whole record is.
    // The 0 is told too: it stands in the field's place.
    pub fn field(self) -> u32
        ensures { result ≡ fault_field self }
    {
        match self {
            Fault::Number { field } => field,
            Fault::Form | Fault::Phase | Fault::Broken => 0,
        }
    }
}
