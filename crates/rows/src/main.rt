// Runs the published rows and tables and prints each with what it should be and what it is. What should be is typed from 01 and
// 02 and from the print of 000 with the one repair that 01 names: each table stands beside the one function that asks for its rows.
#![tactic(auto)]

mod floats;
mod grid;
mod received;
mod say;
mod tables;
mod words;

fn main(rt: HostRuntime) {
    let to = rt.stdout();
    tables::all(to);
    words::all(to);
    grid::all(to);
    floats::all(to);
    received::all(to);
}
