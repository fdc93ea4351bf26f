// Witnesses, formed in a table for as many as there may be and in smaller ones.
use kinds::amounts::Amounts;
use kinds::amounts::span::Span;
use lists::witnesses::{MOST_WITNESSES, Witnesses};
use logic::shortage::Shortage;
use rows::witness::Witness;
use std::process::Abort;
use std::test::*;

// A witness of the state alone.
fn of_state(state: u32) -> Witness<Span> {
    let mut witness = Witness::blank::<Amounts>();
    witness.state = state;
    witness
}

// Whether a witness of the state gets this number, or finds no room.
fn forms(
    rt: &impl Abort,
    witnesses: &mut Witnesses<Witness<Span>>,
    state: u32,
    number: Result<u8, Shortage>,
) -> Result<(), Fail> {
    assert!(rt; witnesses.form::<Amounts>(of_state(state)) == number);
    Ok(())
}

#[test]
fn equal_witnesses_have_one_number(rt: HostRuntime) -> Result<(), Fail> {
    let mut table = [Witness::blank::<Amounts>(); MOST_WITNESSES];
    let mut witnesses = Witnesses::none(&mut table);
    forms(&rt, &mut witnesses, 7, Ok(0))?;
    forms(&rt, &mut witnesses, 3, Ok(1))?;
    forms(&rt, &mut witnesses, 7, Ok(0))?;
    assert_eq!(rt; witnesses.count(), 2);
    Ok(())
}

#[test]
fn the_257th_witness_is_refused(rt: HostRuntime) -> Result<(), Fail> {
    let mut table = [Witness::blank::<Amounts>(); MOST_WITNESSES + 1];
    let mut witnesses = Witnesses::none(&mut table);
    for number in 0..=255 {
        forms(&rt, &mut witnesses, number as u32, Ok(number))?;
    }
    forms(&rt, &mut witnesses, 256, Err(Shortage::Witnesses))?;
    forms(&rt, &mut witnesses, 255, Ok(255))?;
    assert_eq!(rt; witnesses.count(), MOST_WITNESSES);
    Ok(())
}

#[test]
fn a_short_table_takes_what_fits(rt: HostRuntime) -> Result<(), Fail> {
    let mut table = [Witness::blank::<Amounts>(); 2];
    let mut witnesses = Witnesses::none(&mut table);
    forms(&rt, &mut witnesses, 7, Ok(0))?;
    forms(&rt, &mut witnesses, 3, Ok(1))?;
    forms(&rt, &mut witnesses, 5, Err(Shortage::Witnesses))?;
    forms(&rt, &mut witnesses, 3, Ok(1))?;
    assert_eq!(rt; witnesses.count(), 2);
    let mut empty = Witnesses::none(&mut []);
    forms(&rt, &mut empty, 0, Err(Shortage::Witnesses))?;
    assert_eq!(rt; empty.count(), 0);
    Ok(())
}
