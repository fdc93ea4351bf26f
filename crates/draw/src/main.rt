// Reads records from standard input, and prints the case that they draw.
// Want of memory, or a read or write that fails, ends the program with status 1.
#![tactic(auto)]

use anyhow::Context;
use drawing::drawing::draw;
use flow::room::Room;
use pages::page::{LIMIT, Page};
use std::io::{Read, Write};

// One byte more than may be read shows that there are too many: no more than that is held.
const MOST_READ: usize = LIMIT + 1;

// The first bytes of standard input.
fn read_input(rt: &HostRuntime) -> anyhow::Result<Vec<u8>> {
    let mut input = Vec::new(rt.alloc());
    rt.stdin().take(MOST_READ as u64).read_to_end(&mut input)?;
    Ok(input)
}

fn run(rt: &HostRuntime) -> anyhow::Result<()> {
    let input = read_input(rt)?;
    let room = Room::new(rt.alloc())?;
    let mut page = Page::new(rt.alloc())?;
    draw(room, &mut page, input.as_slice());
    let text = page.text().context("nothing to print")?;
    rt.stdout().write_all(text)?;
    Ok(())
}

fn main(rt: HostRuntime) -> anyhow::Result<()> {
    run(&rt)
}
