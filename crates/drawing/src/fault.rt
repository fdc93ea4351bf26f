// Why a record is refused: a fault of the text, or a refusal of the case, held whole.
ghost use Rattle.std.specs.Prelude.{◌≡◌};
ghost use Rattle.drawing.specs.Faults.{field_of, layer_of, letter as written, number_of};
ghost use Rattle.drawing.specs.declared.fault.Fault.TheVariants.{Case as of_case, Text as of_text};

use flow::refusal::Refusal;
use records::fault::Fault as TextFault;

/// Which layer refuses.
#[derive(Clone, Copy, PartialEq, Eq, Debug)]
pub enum Layer {
    /// The text is no record, or not one for this phase.
    Text = b'T' as isize,
    /// The case refuses the call.
    Case = b'C' as isize,
}

/// The layer's letter.
impl From<Layer> for u8 {
    ghost from_gives = { λ layer result. result ≡ written layer };

    fn from(layer: Layer) -> u8 {
        layer as u8
    }
}

/// Why a record is refused.
#[derive(Clone, Copy, PartialEq, Eq, Debug)]
pub enum Fault {
    Text(TextFault),
    Case(Refusal),
}

// The two `From` are written out: derived ones have no contract.
impl From<TextFault> for Fault {
    ghost from_gives = { λ fault r. r ≡ of_text fault };

    fn from(fault: TextFault) -> Fault {
        Self::Text(fault)
    }
}

impl From<Refusal> for Fault {
    ghost from_gives = { λ refusal r. r ≡ of_case refusal };

    fn from(refusal: Refusal) -> Fault {
        Self::Case(refusal)
    }
}

impl Fault {
    /// The layer that refuses.
    pub fn layer(self) -> Layer
        ensures { result ≡ layer_of self }
    {
        match self {
            Fault::Text(_) => Layer::Text,
            Fault::Case(_) => Layer::Case,
        }
    }

    /// The number of the fault or of the refusal.
    // A match, which hands on: each side has its own numbers, of types of their own.
    pub fn number(self) -> u32
        ensures { result ≡ number_of self }
    {
        match self {
            Fault::Text(fault) => u32::from(fault.number()),
            Fault::Case(refusal) => refusal.number(),
        }
    }

    /// The field that is at fault, or 0.
    // The 0 is told too: it stands in the field's place.
    pub fn field(self) -> u32
        ensures { result ≡ field_of self }
    {
        match self {
            Fault::Text(fault) => fault.field(),
            Fault::Case(_) => 0,
        }
    }
}
