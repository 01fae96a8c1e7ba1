// Reads a recording from standard input and lists the circles of threads that could end up waiting for one another, or says what
// is wrong with the recording.
#![tactic(auto)]

use anyhow::bail;
use console::{print_answer, print_circle, print_fault, read_input};
use file_check::check_file;
use order::Matrix;
use rows::{Circle, CircleRow, Edge};
use sorted_list::{Record, SortedList};

// The places for edges and for circles, and the most chains that are looked at.
const EDGES: usize = 1_024;

const CIRCLES: usize = 64;

const BUDGET: u32 = 1_000_000;

// The circles with their odds at n = 1, and what they come to.
// A recording that is turned down, and one that cannot be read, end the program with status 1.
fn main(rt: HostRuntime) -> anyhow::Result<()> {
    let file = read_input(rt.alloc(), rt.stdin())?;
    let mut edge_places = [Edge::blank(); EDGES];
    let mut circle_places = [CircleRow::blank(); CIRCLES];
    let mut edges = SortedList::open(&mut edge_places);
    let mut circles = SortedList::open(&mut circle_places);
    let mut out = rt.stdout();
    match check_file::<Matrix>(file.as_slice(), &mut edges, &mut circles, BUDGET) {
        Ok(answer) => {
            for row in circles.records() {
                print_circle(&mut out, &Circle::from_row(*row), 1)?;
            }
            print_answer(&mut out, &answer)?;
            Ok(())
        }
        Err(fault) => {
            print_fault(&mut out, &fault)?;
            bail!("turned down")
        }
    }
}
