// Broken and odd records, through the whole drawing.
use drawing::drawing::draw;
use flow::room::Room;
use pages::page::Page;
use std::process::Abort;
use std::test::*;

// Whether the input is drawn so.
fn draws(rt: &(impl Abort + AllocGlobal), input: &[u8], output: &[u8]) -> Result<(), Fail> {
    let mut page = Page::new(rt.alloc())?;
    draw(Room::new(rt.alloc())?, &mut page, input);
    assert!(rt; page.text().ok_or("too long")? == output);
    Ok(())
}

#[test]
fn records(rt: HostRuntime) -> Result<(), Fail> {
    draws(&rt, b"", b"D,0,0,0,0,0,0,0\r\n")?;
    draws(&rt, b"\r\n", b"X,T,20,1,0\r\nD,0,0,0,0,0,1,0\r\n")?;
    draws(&rt, b"S", b"S,0,0\r\nD,1,0,1,0,0,0,0\r\n")?;
    draws(&rt, b"S\r\n", b"S,0,0\r\nD,1,0,1,0,0,0,0\r\n")?;
    draws(
        &rt,
        b"S\r\n\r\nS",
        b"X,T,20,2,0\r\nS,0,0\r\nS,1,1\r\nD,2,0,2,0,0,1,0\r\n",
    )
}

// Whether each of the inputs is drawn so.
fn all_draw(rt: &(impl Abort + AllocGlobal), inputs: &[&[u8]], output: &[u8]) -> Result<(), Fail> {
    for input in inputs {
        draws(rt, input, output)?;
    }
    Ok(())
}

#[test]
fn stray_bytes(rt: HostRuntime) -> Result<(), Fail> {
    all_draw(
        &rt,
        &[
            b"S\r",
            b"S\n",
            b"S\nS\r\n",
            b"S\rS\r\n",
            b"S\r\r\n",
            b"\"S\"",
        ],
        b"X,T,23,1,0\r\nD,0,0,0,0,0,1,0\r\n",
    )?;
    draws(
        &rt,
        b"\r\r\nS",
        b"X,T,23,1,0\r\nS,0,0\r\nD,1,0,1,0,0,1,0\r\n",
    )?;
    draws(
        &rt,
        b"Q\"\r\nS\r\n\n",
        b"X,T,23,1,0\r\nX,T,23,3,0\r\nS,0,0\r\nD,1,0,1,0,0,2,0\r\n",
    )
}

#[test]
fn numbers(rt: HostRuntime) -> Result<(), Fail> {
    draws(
        &rt,
        b"S\r\nL,0,1,4294967295",
        b"S,0,0,1 4294967295\r\nD,1,0,1,1,0,0,0\r\n",
    )?;
    all_draw(
        &rt,
        &[
            b"L,0,1,4294967296",
            b"L,0,1,1234567890123456789012345678901234567890",
            b"L,0,1,00",
            b"L,0,1,01",
            b"L,0,1,",
            b"L,0,1,+1",
            b"L,0,1, 1",
        ],
        b"X,T,21,1,4\r\nD,0,0,0,0,0,1,0\r\n",
    )?;
    draws(&rt, b"L,0,x,y", b"X,T,21,1,3\r\nD,0,0,0,0,0,1,0\r\n")?;
    draws(&rt, b"E,,1", b"X,T,21,1,2\r\nD,0,0,0,0,0,1,0\r\n")
}

#[test]
fn forms(rt: HostRuntime) -> Result<(), Fail> {
    all_draw(
        &rt,
        &[
            b"s",
            b"SS",
            b"S,",
            b"E,0",
            b"E,0,0,0",
            b"L,0",
            b"L,0,1,1,2,3,4,5",
            b"F,P",
            b"F,,1",
            b"F,PP,1",
            b"K",
        ],
        b"X,T,20,1,0\r\nD,0,0,0,0,0,1,0\r\n",
    )
}

#[test]
fn phases(rt: HostRuntime) -> Result<(), Fail> {
    draws(
        &rt,
        b"F,P,x\r\nK,x",
        b"X,T,22,1,0\r\nX,T,22,2,0\r\nD,0,0,0,0,0,2,0\r\n",
    )?;
    draws(
        &rt,
        b"C\r\nC\r\nS\r\nE,x,y\r\nL,x,y",
        b"X,T,22,2,0\r\nX,T,22,3,0\r\nX,T,22,4,0\r\nX,T,22,5,0\r\nD,0,0,0,0,0,4,0\r\n",
    )?;
    draws(
        &rt,
        b"C,0\r\nS\r\nC\r\nK,7",
        b"X,T,20,1,0\r\nS,0,0\r\nD,1,0,1,0,0,1,1\r\n",
    )
}

#[test]
fn operators(rt: HostRuntime) -> Result<(), Fail> {
    draws(
        &rt,
        b"C\r\nF,P,1\r\nF,\xff,0\r\nF,p,0\r\nF,!,0",
        b"X,C,6,3,0\r\nX,C,6,4,0\r\nF,0,P,1\r\nF,1,!,0\r\nD,0,0,0,0,2,2,0\r\n",
    )?;
    draws(
        &rt,
        b"C\r\nF,P,1\r\nF,P,1,0,0,0,0",
        b"X,C,7,3,0\r\nF,0,P,1\r\nD,0,0,0,0,1,1,0\r\n",
    )
}

#[test]
fn lengths(rt: HostRuntime) -> Result<(), Fail> {
    let mut input = vec![in rt.alloc(); b' '; 65536]?;
    draws(&rt, input.as_slice(), b"X,T,20,1,0\r\nD,0,0,0,0,0,1,0\r\n")?;
    input.push(b' ')?;
    draws(&rt, input.as_slice(), b"X,T,24,0,0\r\n")
}
