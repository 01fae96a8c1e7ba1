// Reads a recording from standard input and says what each of its lines does, or what is wrong with it.
#![tactic(auto)]

use anyhow::bail;
use console::{print_fault, read_input};
use feed::{Lines, feed};
use rows::Event;
use std::io;
use text::read_line;

// What a line does. A line with a fault is never printed, since its file was turned down.
fn print_line(rt: &HostRuntime, line: &[u8]) -> io::Result<()> {
    match read_line(line) {
        Ok(Event::Lock(thread, lock)) => println!(rt; "T{thread} takes L{lock}"),
        Ok(Event::Release(thread, lock)) => println!(rt; "T{thread} releases L{lock}"),
        Ok(Event::Start(thread, started)) => println!(rt; "T{thread} starts T{started}"),
        Ok(Event::Join(thread, joined)) => println!(rt; "T{thread} joins T{joined}"),
        Err(_) => Ok(()),
    }
}

// A recording that is turned down, and one that cannot be read, end the program with status 1: in two lines, as in `find_circles`.
fn main(rt: HostRuntime) -> anyhow::Result<()> {
    let file = read_input(rt.alloc(), rt.stdin())?;
    match feed(file.as_slice()) {
        Ok(lines) => {
            for line in Lines::of(file.as_slice()) {
                print_line(&rt, line)?;
            }
            println!(rt; "lines {lines}")?;
            Ok(())
        }
        Err(fault) => {
            print_fault(&mut rt.stdout(), &fault)?;
            bail!("turned down")
        }
    }
}
