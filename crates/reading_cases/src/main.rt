// Answers the readings on standard input, by two lines each; tests/differential writes the cases and the answers that are owed.
#![tactic(auto)]

mod reading;

use case_io::{answer_all, read_input, room};
use reading::Reading;
use std::io;

fn main(rt: HostRuntime) -> io::Result<()> {
    let mut space = room::<524288>();
    let file = read_input(&mut rt.stdin(), &mut space)?;
    answer_all::<Reading<'_>, _>(file, &mut rt.stdout())
}
