// The form of a record: a known letter, as many fields as it allows, and an operator of one byte if it has one.
ghost use Rattle.std.specs.Prelude.{◌≡◌, [], IfOk, IsTrue, slice_index_or};
ghost use Rattle.records.specs.Asked.{asked_letter, fits};
ghost use Rattle.records.specs.Texts.{fields, only};

use crate::fault::Fault;
use crate::letter::Letter;
use crate::record::Record;

// The operator of a record: its second field, where that is one byte.
pub fn operator_of(record: &Record) -> Option<u8>
    ensures { result ≡ only (slice_index_or (fields «record».now.text.now) 1 []) }
{
    match record.bytes(2) {
        [byte] => Some(*byte),
        _ => None,
    }
}

// Whether a record has the form of the letter.
fn has_form(record: &Record, letter: Letter) -> bool
    ensures { result ≡ fits letter (fields «record».now.text.now) }
{
    let shape = letter.shape();
    // One field too many is enough to tell.
    (shape.least..=shape.most).contains(&record.field_count(shape.most + 1))
        && (!shape.operator || operator_of(record).is_some())
}

// The letter of a record that is not broken and has the letter's form.
#[tactic(auto, unfolding(crate::specs::Asked::asked_letter))]
pub fn letter_of(record: &Record) -> Result<Letter, Fault>
    ensures asked { result ≡ asked_letter «record».now.text.now }
    ensures fits { let of = «record».now in
        IfOk result (λ letter. IsTrue (fits letter (fields of.text.now))) }
{
    if record.strays {
        return Err(Fault::Broken);
    }
    let letter = Letter::try_from(record.bytes(1))?;
    if !has_form(record, letter) {
        return Err(Fault::Form);
    }
    Ok(letter)
}
