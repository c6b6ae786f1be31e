// The laboratory: both ends of the line behind a text protocol. A line of standard input is answered by a line of standard
// output; `lab help` prints what the lines are. What no proof can say of a program, which bytes it reads and writes, is kept
// to the crate `stream` and, for words after the program's name, to `words` and `help`; all the rest works on slices lent here.
#![tactic(auto)]

mod help;
mod words;

use edge::Streams;

fn main(rt: HostRuntime) {
    let to = Streams {
        out: rt.stdout(),
        err: rt.stderr(),
    };
    if edge::is_given(&rt, 1) {
        words::answer(&rt, to);
        return;
    }
    let mut chunk = [0u8; 65536];
    let mut line = [0u8; 65536];
    let mut page = [0u8; 131072];
    let mut input = rt.stdin();
    stream::serve(&mut input, to, &mut chunk, &mut line, &mut page);
}
