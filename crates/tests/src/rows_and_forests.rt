// Forests, rows, witnesses and denials.
use crate::boxes::{but, one};
use kinds::amounts::Amounts;
use kinds::amounts::span::Span;
use kinds::fragments::Fragments;
use kinds::kind::Kind;
use rows::denial::Denial;
use rows::forest::Forest;
use rows::row::Row;
use rows::variable::Variable;
use rows::witness::Witness;
use std::process::Abort;
use std::test::*;

// Whether the row is there and equal to the other.
fn gives<K: Kind>(
    rt: &impl Abort,
    row: Option<Row<K::Box>>,
    other: &Row<K::Box>,
) -> Result<(), Fail> {
    assert!(rt; row.ok_or("no row")?.equals::<K>(other));
    Ok(())
}

#[test]
fn forests_have_their_numbers(rt: HostRuntime) -> Result<(), Fail> {
    let forest = Forest::single(0)
        .union(&Forest::single(64))
        .union(&Forest::single(255));
    assert!(rt; forest.has(0) && forest.has(64) && forest.has(255));
    assert!(rt; !forest.has(1) && !forest.has(63) && !forest.has(65) && !forest.has(254));
    assert!(rt; Forest::single(63).has(63) && !Forest::single(63).has(64));
    assert!(rt; !Forest::none().has(0) && !Forest::none().has(255));
    Ok(())
}

#[test]
fn forests_are_equal_by_their_numbers(rt: HostRuntime) -> Result<(), Fail> {
    let low = Forest::single(0).union(&Forest::single(63));
    let high = Forest::single(64).union(&Forest::single(255));
    assert!(rt; low.union(&high).equals(&high.union(&low)));
    assert!(rt; low.union(&low).equals(&low) && low.union(&Forest::none()).equals(&low));
    assert!(rt; !low.equals(&high) && !low.equals(&Forest::single(0)));
    assert!(rt; !Forest::single(255).equals(&Forest::none()));
    Ok(())
}

#[test]
fn rows_are_equal_by_their_parts(rt: HostRuntime) -> Result<(), Fail> {
    let blank = Row::blank::<Fragments>(3);
    assert!(rt; Fragments::same(&blank.boxes[3], &Fragments::all()));
    assert!(rt; blank.equals::<Fragments>(&blank));
    assert!(rt; !blank.equals::<Fragments>(&Row::blank::<Fragments>(2)));
    let narrowed = blank.with_box::<Fragments>(Variable { number: 3 }, one::<Fragments>(5)?);
    assert!(rt; !blank.equals::<Fragments>(&narrowed));
    let mut witnessed = blank;
    witnessed.forest = Forest::single(255);
    assert!(rt; !blank.equals::<Fragments>(&witnessed));
    Ok(())
}

#[test]
fn rows_of_a_state_join(rt: HostRuntime) -> Result<(), Fail> {
    let other = but::<Fragments>(5)?;
    let mut first = Row::blank::<Fragments>(1).with_box::<Fragments>(
        Variable { number: 0 },
        one::<Fragments>(5)?,
    );
    first.forest = Forest::single(7);
    let mut second = Row::blank::<Fragments>(1).with_box::<Fragments>(
        Variable { number: 2 },
        other,
    );
    second.forest = Forest::single(200);
    let mut both = first.with_box::<Fragments>(Variable { number: 2 }, other);
    both.forest = first.forest.union(&second.forest);
    gives::<Fragments>(&rt, first.join::<Fragments>(&second), &both)
}

#[test]
fn rows_apart_do_not_join(rt: HostRuntime) -> Result<(), Fail> {
    let here = Row::blank::<Fragments>(1);
    let there = Row::blank::<Fragments>(2);
    assert!(rt; here.join::<Fragments>(&there).is_none());
    let five = here.with_box::<Fragments>(Variable { number: 3 }, one::<Fragments>(5)?);
    let other = here.with_box::<Fragments>(Variable { number: 3 }, but::<Fragments>(5)?);
    assert!(rt; five.join::<Fragments>(&other).is_none());
    Ok(())
}

#[test]
fn witnesses_are_equal_by_their_parts(rt: HostRuntime) -> Result<(), Fail> {
    let blank = Witness::blank::<Fragments>();
    assert!(rt; blank.equals::<Fragments>(&blank));
    let mut other = blank;
    other.state = 1;
    assert!(rt; !blank.equals::<Fragments>(&other));
    other = blank;
    other.variable = 3;
    assert!(rt; !blank.equals::<Fragments>(&other));
    other = blank;
    other.found = one::<Fragments>(5)?;
    assert!(rt; !blank.equals::<Fragments>(&other));
    other = blank;
    other.forest = Forest::single(0);
    assert!(rt; !blank.equals::<Fragments>(&other));
    Ok(())
}

#[test]
fn fragments_deny(rt: HostRuntime) -> Result<(), Fail> {
    let blank = Row::blank::<Fragments>(1);
    let row = blank
        .with_box::<Fragments>(Variable { number: 0 }, one::<Fragments>(5)?)
        .with_box::<Fragments>(Variable { number: 2 }, but::<Fragments>(7)?);
    let mut denial = Denial::<Fragments>::of(&row, 3);
    gives::<Fragments>(&rt, denial.next(), &Row::blank::<Fragments>(0))?;
    gives::<Fragments>(&rt, denial.next(), &Row::blank::<Fragments>(2))?;
    let other = blank.with_box::<Fragments>(Variable { number: 0 }, but::<Fragments>(5)?);
    gives::<Fragments>(&rt, denial.next(), &other)?;
    let seven = blank.with_box::<Fragments>(Variable { number: 2 }, one::<Fragments>(7)?);
    gives::<Fragments>(&rt, denial.next(), &seven)?;
    assert!(rt; denial.next().is_none());
    assert!(rt; denial.next().is_none());
    Ok(())
}

#[test]
fn amounts_deny(rt: HostRuntime) -> Result<(), Fail> {
    let blank = Row::blank::<Amounts>(0);
    let row = blank.with_box::<Amounts>(Variable { number: 3 }, Span { low: 5, high: 9 });
    let mut denial = Denial::<Amounts>::of(&row, 2);
    gives::<Amounts>(&rt, denial.next(), &Row::blank::<Amounts>(1))?;
    let lower = blank.with_box::<Amounts>(Variable { number: 3 }, Span { low: 0, high: 4 });
    gives::<Amounts>(&rt, denial.next(), &lower)?;
    let higher = blank.with_box::<Amounts>(
        Variable { number: 3 },
        Span {
            low: 10,
            high: 4294967295,
        },
    );
    gives::<Amounts>(&rt, denial.next(), &higher)?;
    assert!(rt; denial.next().is_none());
    assert!(rt; denial.next().is_none());
    Ok(())
}
