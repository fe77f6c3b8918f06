// Replays the list on standard input, a step a line, on the calls of pokerbox, and writes what they answer. The file `stdout`
// has the reference module's answers; README.md says how both were made.
#![tactic(auto)]

use std::io;

mod step;
mod text;

// A read or a write that fails ends the program with its error.
fn main(rt: HostRuntime) -> io::Result<()> {
    let mut list = rt.reader();
    let mut answers = io::writer(&rt);
    step::run(&mut list, &mut answers)
}
