// The limits of a case: one below, at, and one above.
use flow::case::Case;
use flow::draft::Draft;
use flow::refusal::Refusal;
use flow::room::Room;
use std::process::Abort;
use std::test::*;

// The number of a refusal, or 0.
fn refused<T: Drop>(r: Result<T, Refusal>) -> u32 {
    match r {
        Ok(_) => 0,
        Err(refusal) => refusal.number(),
    }
}

// A draft with so many states.
fn with_states(rt: &(impl Abort + AllocGlobal), states: u32) -> Result<Draft, Fail> {
    let mut draft = Draft::begin(Room::new(rt.alloc())?);
    for _ in 0..states {
        assert_eq!(rt; refused(draft.state()), 0);
    }
    Ok(draft)
}

// A draft of 256 states with so many edges: each leads one or two states on.
fn with_edges(rt: &(impl Abort + AllocGlobal), edges: u32) -> Result<Draft, Fail> {
    let mut draft = with_states(rt, 256)?;
    for i in 0..edges {
        let from = i % 256;
        assert_eq!(rt; refused(draft.edge(from, (from + 1 + i / 256) % 256)), 0);
    }
    Ok(draft)
}

// A closed case with so many lines.
fn with_lines(rt: &(impl Abort + AllocGlobal), lines: u32) -> Result<Case, Fail> {
    let mut case = with_states(rt, 1)?.close();
    for i in 0..lines {
        let r = case.line('P', &[i]);
        assert!(rt; r == Ok(i));
    }
    Ok(case)
}

#[test]
fn states(rt: HostRuntime) -> Result<(), Fail> {
    let mut draft = with_states(&rt, 255)?;
    assert!(rt; draft.state() == Ok(255));
    assert_eq!(rt; refused(draft.state()), 1);
    assert_eq!(rt; refused(draft.edge(255, 255)), 0);
    assert_eq!(rt; refused(draft.edge(255, 256)), 2);
    assert_eq!(rt; draft.close().states(), 256);
    Ok(())
}

#[test]
fn edges(rt: HostRuntime) -> Result<(), Fail> {
    let mut draft = with_edges(&rt, 511)?;
    assert_eq!(rt; refused(draft.edge(0, 0)), 0);
    assert_eq!(rt; refused(draft.edge(1, 1)), 4);
    assert_eq!(rt; refused(draft.edge(0, 0)), 3);
    assert_eq!(rt; refused(draft.edge(0, 256)), 2);
    assert_eq!(rt; draft.edges().len(), 512);
    Ok(())
}

#[test]
fn edges_that_closing_adds_count_against_no_limit(rt: HostRuntime) -> Result<(), Fail> {
    let mut draft = with_states(&rt, 256)?;
    for from in 0..2 {
        for to in 0..256 {
            assert_eq!(rt; refused(draft.edge(from, to)), 0);
        }
    }
    assert_eq!(rt; refused(draft.edge(2, 0)), 4);
    assert_eq!(rt; draft.close().edges().len(), 512 + 254);
    Ok(())
}

#[test]
fn labels(rt: HostRuntime) -> Result<(), Fail> {
    let mut draft = with_states(&rt, 2)?;
    for i in 0..511 {
        assert_eq!(rt; refused(draft.label(i % 2, i / 2, &[])), 0);
    }
    assert_eq!(rt; refused(draft.label(0, 0, &[0])), 0);
    assert_eq!(rt; refused(draft.label(0, 0, &[1])), 4);
    assert_eq!(rt; refused(draft.label(0, 0, &[0])), 3);
    assert_eq!(rt; refused(draft.label(0, 256, &[0])), 5);
    assert_eq!(rt; refused(draft.label(2, 256, &[0])), 2);
    assert_eq!(rt; draft.close().labels().len(), 512);
    Ok(())
}

#[test]
fn predicates_and_values(rt: HostRuntime) -> Result<(), Fail> {
    let mut draft = with_states(&rt, 1)?;
    assert_eq!(rt; refused(draft.label(0, 254, &[1, 2])), 0);
    assert_eq!(rt; refused(draft.label(0, 255, &[1, 2, 4294967295])), 0);
    assert_eq!(rt; refused(draft.label(0, 256, &[1, 2, 3])), 5);
    assert_eq!(rt; refused(draft.label(0, 255, &[1, 2, 3, 4])), 5);
    assert_eq!(rt; refused(draft.label(0, 255, &[1, 2, 3])), 0);
    assert_eq!(rt; draft.close().labels().len(), 3);
    Ok(())
}

#[test]
fn lines(rt: HostRuntime) -> Result<(), Fail> {
    let mut case = with_lines(&rt, 31)?;
    assert!(rt; case.line('!', &[30]) == Ok(31));
    assert_eq!(rt; refused(case.line('!', &[31])), 4);
    assert_eq!(rt; refused(case.line('!', &[32])), 7);
    assert_eq!(rt; refused(case.line('?', &[32])), 6);
    assert_eq!(rt; case.lines().len(), 32);
    Ok(())
}

#[test]
fn operands(rt: HostRuntime) -> Result<(), Fail> {
    let mut case = with_lines(&rt, 2)?;
    assert_eq!(rt; refused(case.line('P', &[255, 0, 3, 3])), 0);
    assert_eq!(rt; refused(case.line('P', &[256])), 7);
    assert_eq!(rt; refused(case.line('P', &[1, 4])), 7);
    assert_eq!(rt; refused(case.line('P', &[])), 7);
    assert_eq!(rt; refused(case.line('P', &[1, 0, 1, 2, 3])), 7);
    assert_eq!(rt; refused(case.line('Q', &[3, 2])), 0);
    assert_eq!(rt; refused(case.line('Q', &[4, 2])), 7);
    assert_eq!(rt; refused(case.line('&', &[0, 3])), 0);
    assert_eq!(rt; refused(case.line('|', &[0, 5])), 7);
    assert_eq!(rt; refused(case.line('A', &[5, 0])), 7);
    assert_eq!(rt; refused(case.line('U', &[0])), 7);
    assert_eq!(rt; refused(case.line('X', &[0, 1])), 7);
    assert_eq!(rt; refused(case.line('N', &[4294967295])), 7);
    Ok(())
}
