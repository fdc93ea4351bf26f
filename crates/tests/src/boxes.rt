// Boxes of both kinds: what they meet, their pieces, their text.
use kinds::amounts::Amounts;
use kinds::amounts::span::Span;
use kinds::fragments::Fragments;
use kinds::kind::Kind;
use kinds::printing::PrintingKind;
use pages::page::Page;
use std::process::Abort;
use std::test::*;

// Whether the box prints so, by either call.
fn prints<K: PrintingKind>(
    rt: &(impl Abort + AllocGlobal),
    b: &K::Box,
    text: &[u8],
) -> Result<(), Fail> {
    let mut page = Page::new(rt.alloc())?;
    K::print_within(b, &mut page);
    assert!(rt; page.text().ok_or("too long")? == text);
    page.clear();
    K::print(b, &mut page);
    assert!(rt; page.text().ok_or("too long")? == text);
    Ok(())
}

// Whether the box is there and prints so.
fn gives<K: PrintingKind>(
    rt: &(impl Abort + AllocGlobal),
    b: Option<K::Box>,
    text: &[u8],
) -> Result<(), Fail> {
    prints::<K>(rt, &b.ok_or("no box")?, text)
}

// The box of one number.
pub(crate) fn one<K: Kind>(n: u32) -> Result<K::Box, Fail> {
    Ok(K::one(n).ok_or("not nameable")?)
}

// All values but one number.
pub(crate) fn but<K: Kind>(n: u32) -> Result<K::Box, Fail> {
    Ok(K::piece(&one::<K>(n)?, 0).ok_or("no piece")?)
}

#[test]
fn fragments_print(rt: HostRuntime) -> Result<(), Fail> {
    prints::<Fragments>(&rt, &Fragments::all(), b"*")?;
    prints::<Fragments>(&rt, &one::<Fragments>(5)?, b"=5")?;
    prints::<Fragments>(&rt, &but::<Fragments>(5)?, b"-5")
}

#[test]
fn fragments_that_exclude_each_other_do_not_meet(rt: HostRuntime) -> Result<(), Fail> {
    let five = one::<Fragments>(5)?;
    let other = but::<Fragments>(5)?;
    assert!(rt; Fragments::meet(&five, &other).is_none());
    assert!(rt; Fragments::meet(&other, &five).is_none());
    Ok(())
}

#[test]
fn excluded_fragments_add_up(rt: HostRuntime) -> Result<(), Fail> {
    let met = Fragments::meet(&but::<Fragments>(3)?, &but::<Fragments>(1)?);
    gives::<Fragments>(&rt, met, b"-1 3")?;
    if let Some(b) = met {
        gives::<Fragments>(&rt, Fragments::piece(&b, 0), b"=1")?;
        gives::<Fragments>(&rt, Fragments::piece(&b, 1), b"=3")?;
        assert!(rt; Fragments::piece(&b, 2).is_none());
        assert!(rt; Fragments::same(&b, &b));
        assert!(rt; !Fragments::same(&b, &Fragments::all()));
    }
    Ok(())
}

#[test]
fn fragments_are_nameable_below_64(rt: HostRuntime) -> Result<(), Fail> {
    assert!(rt; Fragments::takes(0) && Fragments::takes(63) && !Fragments::takes(64));
    assert!(rt; Fragments::one(63).is_some() && Fragments::one(64).is_none());
    assert_eq!(rt; Fragments::PIECES, 64);
    Ok(())
}

#[test]
fn all_fragments_have_no_piece(rt: HostRuntime) -> Result<(), Fail> {
    assert!(rt; Fragments::piece(&Fragments::all(), 0).is_none());
    Ok(())
}

#[test]
fn amounts_meet(rt: HostRuntime) -> Result<(), Fail> {
    let low = Span { low: 0, high: 9 };
    let high = Span { low: 9, high: 12 };
    let lower = Span { low: 0, high: 8 };
    prints::<Amounts>(&rt, &low, b"0..9")?;
    gives::<Amounts>(&rt, Amounts::meet(&low, &high), b"9..9")?;
    assert!(rt; Amounts::meet(&lower, &high).is_none());
    Ok(())
}

#[test]
fn amounts_have_pieces_below_and_above(rt: HostRuntime) -> Result<(), Fail> {
    let five = one::<Amounts>(5)?;
    prints::<Amounts>(&rt, &five, b"5..5")?;
    gives::<Amounts>(&rt, Amounts::piece(&five, 0), b"0..4")?;
    gives::<Amounts>(&rt, Amounts::piece(&five, 1), b"6..4294967295")?;
    assert!(rt; Amounts::piece(&five, 2).is_none());
    gives::<Amounts>(
        &rt,
        Amounts::piece(&one::<Amounts>(0)?, 0),
        b"1..4294967295",
    )?;
    gives::<Amounts>(
        &rt,
        Amounts::piece(&one::<Amounts>(4294967295)?, 0),
        b"0..4294967294",
    )?;
    assert!(rt; Amounts::piece(&Amounts::all(), 0).is_none());
    assert!(rt; Amounts::takes(4294967295));
    assert_eq!(rt; Amounts::PIECES, 2);
    Ok(())
}
