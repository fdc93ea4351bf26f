// From records to calls.
ghost use Rattle.std.specs.Prelude.{◌≡◌, ◌-◌, ◌<◌, ◌≤◌, [], length, drop, unwrap_or};
ghost use Rattle.records.specs.Asked.{draft_call, numbers, sheet_call};
ghost use Rattle.records.specs.Limits.{most_fields};
ghost use Rattle.records.specs.Numbers.{number_of};
ghost use Rattle.records.specs.Seen.{draft_seen, seen, sheet_seen};
ghost use Rattle.records.specs.Texts.{field_at, fields};
ghost use Rattle.records.specs.declared.fault.Fault.TheVariants.{Number};
ghost use Rattle.std.specs.Option.{ok_or};
ghost use Rattle.stores.specs.Listed.{listed};

use crate::call::{DraftCall, SheetCall};
use crate::fault::Fault;
use crate::form::{letter_of, operator_of};
use crate::letter::{Letter, MOST_FIELDS};
use crate::number::read_number;
use crate::numbers::Numbers;
use crate::record::Record;

// The number in a field.
fn number_at(record: &Record, at: u32) -> Result<u32, Fault>
    ensures { let field = unwrap_or (field_at «record».now.text.now at) [] in
        result ≡ ok_or (number_of field) (Number at) }
{
    read_number(record.bytes(at)).ok_or(Fault::Number { field: at })
}

// The numbers in the fields from `first` on.
#[tactic(auto, using(crate::proofs::Collected::after_laws))]
fn numbers_from(record: &Record, first: u32) -> Result<Numbers, Fault>
    requires letter { 1 < first }
    requires most { length (fields «record».now.text.now) ≤ most_fields }
    ensures { let of = «record».now in
        seen listed result ≡ numbers first (drop (first - 1) (fields of.text.now)) }
{
    let mut numbers = Numbers::new();
    // By number: a fault names its field by it.
    for at in first..=record.field_count(MOST_FIELDS) as u32 {
        numbers.push(number_at(record, at)?);
    }
    Ok(numbers)
}

/// What a record asks of a draft: `S`, `E,from,to`, `L,state,predicate` and up to four values, or `C`.
/// `F` and `K` are refused with the fault `Phase`. Of several faults the earliest is answered.
impl TryFrom<&Record<'_>> for DraftCall {
    type Error = Fault;

    ghost try_from_gives = { λ of result. seen draft_seen result ≡ draft_call of.now.text.now };

    fn try_from(record: &Record<'_>) -> Result<DraftCall, Fault> {
        match letter_of(record)? {
            Letter::State => Ok(DraftCall::State),
            Letter::Edge => {
                let from = number_at(record, 2)?;
                let to = number_at(record, 3)?;
                Ok(DraftCall::Edge { from, to })
            }
            Letter::Label => {
                let state = number_at(record, 2)?;
                let predicate = number_at(record, 3)?;
                let values = numbers_from(record, 4)?;
                Ok(DraftCall::Label {
                    state,
                    predicate,
                    values,
                })
            }
            Letter::Close => Ok(DraftCall::Close),
            Letter::Line | Letter::Check => Err(Fault::Phase),
        }
    }
}

/// What a record asks of a closed case: `F,operator` and one to five numbers, or `K,line`.
/// `S`, `E`, `L` and `C` are refused with the fault `Phase`. Of several faults the earliest is answered.
impl TryFrom<&Record<'_>> for SheetCall {
    type Error = Fault;

    ghost try_from_gives = { λ of result. seen sheet_seen result ≡ sheet_call of.now.text.now };

    fn try_from(record: &Record<'_>) -> Result<SheetCall, Fault> {
        match letter_of(record)? {
            Letter::Line => {
                let operator = operator_of(record).ok_or(Fault::Form)?;
                let numbers = numbers_from(record, 3)?;
                Ok(SheetCall::Line { operator, numbers })
            }
            Letter::Check => {
                let line = number_at(record, 2)?;
                Ok(SheetCall::Check { line })
            }
            Letter::State | Letter::Edge | Letter::Label | Letter::Close => Err(Fault::Phase),
        }
    }
}
