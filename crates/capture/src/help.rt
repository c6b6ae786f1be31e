// The page of `capture help`. It goes to standard output where it is asked for, and to the error stream where a word is unknown.
use edge::Streams;
use std::io;

fn show<P: Print>(to: &P) -> io::Result<()> {
    to.write_all(
        b"capture: recorded runs of a receiver.

  capture record          records a receiver: lines of lab in, the capture out, each line's answer on the error stream
  capture replay [FILE]   runs the receiver on the capture and prints one line
  capture show [FILE]     prints a line for each record, then `offset P malformed` if the capture is
  capture compare A B     prints a line for each record in which the two captures differ, then how many lines that were
  capture salvage IN OUT  writes what can be kept of a damaged capture, with the words that belong there, and prints one line
  capture help            prints this page

A recording takes the lines `receiver ..`, `piece ..` and `finish ..` (`lab help`); any other line answers `?`, and a second receiver ends it.
For instance: capture record < run.lab | capture replay

With no FILE standard input is read, as it comes. A replay prints a fault as soon as the bytes settle it, and reads on to the end:

  agree N                          all N words are those that the receiver says
  record N word G expected H       record N has the word G where the receiver says H; `none` where it says nothing
  record N missing word H          the word H should stand where record N is, or at the end
  record N refused R               the receiver refuses record N with the number R
  offset P malformed               no record of a capture begins at byte P

Records and offsets count from 0, and words are eight hexadecimal digits. A script asks: capture replay F | grep -q ^agree

A comparison reads both files twice, so neither may be a pipe. It prints, K being the lines before the last:

  record N differs                 kind or body of record N differs
  record N only first              only A has a record N; `only second` where only B has one
  differences K                    the last line
  first malformed P                A is no capture: nothing else is printed; `second malformed P` where A is one and B is none

A salvage keeps the records of IN up to the first malformed place or refused symbol, drops all words, and writes the capture with the words that
the receiver says. IN is only read, once, so it may be a pipe, as /dev/stdin. It prints what it changed:

  replaced R added A removed M cut C   so many words have changed, are new, or are gone; so many bytes at the end were not kept

The file is written as OUT.part and takes the name OUT once it is whole. An OUT or an OUT.part that exists is left as it is, and nothing is
written. Where no open record can be read, or the receiver refuses it, there is no OUT, and C is all bytes. Where anything fails there is a
message on the error stream, no line and no OUT; a run that is broken off leaves OUT.part, to be removed by hand.

A capture is a row of records: a byte of kind, then its body.

  1  open: u, window, start (0 to 15, or 16 for free), a byte each
  2  symbol taken: four coordinates of 16 bits, low byte first
  3  word released: 32 bits, low byte first
  4  finish: no body
  5  symbol taken of which points are missing: a byte (1 the first, 2 the second, 3 both), then as 2, with 0 for what is missing
  6  open on the square map: as 1
",
    )
}

pub fn print(to: Streams) {
    let out = to.out;
    if let Err(why) = show(&out) {
        edge::tell(to, b"capture: standard output", why);
    }
}

pub fn note(to: Streams) {
    let err = to.err;
    let _ = show(&err);
}
