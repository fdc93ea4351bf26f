// Each refusal has its number, and a refused call leaves all as it was.
use flow::draft::Draft;
use flow::refusal::Refusal;
use flow::room::Room;
use std::test::*;

#[test]
fn numbers(rt: HostRuntime) -> Result<(), Fail> {
    assert_eq!(rt; Refusal::TooManyStates.number(), 1);
    assert_eq!(rt; Refusal::UnknownState.number(), 2);
    assert_eq!(rt; Refusal::AlreadyThere.number(), 3);
    assert_eq!(rt; Refusal::TableFull.number(), 4);
    assert_eq!(rt; Refusal::BadLabel.number(), 5);
    assert_eq!(rt; Refusal::UnknownOperator.number(), 6);
    assert_eq!(rt; Refusal::BadOperand.number(), 7);
    Ok(())
}

#[test]
fn a_refused_call_changes_nothing(rt: HostRuntime) -> Result<(), Fail> {
    let mut draft = Draft::begin(Room::new(rt.alloc())?);
    assert!(rt; draft.edge(0, 0) == Err(Refusal::UnknownState));
    assert!(rt; draft.label(0, 0, &[]) == Err(Refusal::UnknownState));
    assert!(rt; draft.state() == Ok(0));
    assert!(rt; draft.label(0, 300, &[]) == Err(Refusal::BadLabel));
    let mut case = draft.close();
    assert!(rt; case.line('X', &[0]) == Err(Refusal::BadOperand));
    assert!(rt; case.line('Y', &[]) == Err(Refusal::UnknownOperator));
    assert_eq!(rt; case.states(), 1);
    assert_eq!(rt; case.edges().len(), 1);
    assert_eq!(rt; case.labels().len(), 0);
    assert_eq!(rt; case.lines().len(), 0);
    Ok(())
}

#[test]
fn an_empty_draft_may_be_closed(rt: HostRuntime) -> Result<(), Fail> {
    let mut case = Draft::begin(Room::new(rt.alloc())?).close();
    assert_eq!(rt; case.states(), 0);
    assert!(rt; case.line('P', &[0]) == Ok(0));
    Ok(())
}

#[test]
fn successors_stand_in_edge_order(rt: HostRuntime) -> Result<(), Fail> {
    let mut draft = Draft::begin(Room::new(rt.alloc())?);
    for n in 0..3 {
        assert!(rt; draft.state() == Ok(n));
    }
    assert!(rt; draft.edge(0, 2) == Ok(()));
    assert!(rt; draft.edge(1, 0) == Ok(()));
    assert!(rt; draft.edge(0, 1) == Ok(()));
    let case = draft.close();
    assert!(rt; case.successor(0, 0) == Some(2) && case.successor(0, 1) == Some(1));
    assert!(rt; case.successor(0, 2) == None && case.successor(3, 0) == None);
    assert!(rt; case.successor(2, 0) == Some(2) && case.successor(2, 1) == None);
    Ok(())
}
