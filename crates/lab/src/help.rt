// The page of `lab help`: a first session to copy, the verbs, and the numbers given back. It goes to standard output where it is asked
// for, and to the error stream where an argument is another word. Each part answers whether it was written.
use std::io;

fn first_session<P: Print>(to: &P) -> io::Result<()> {
    to.write_all(
        b"lab: both ends of the line by hand. It reads lines from standard input and answers each by a line.

A first session. Start `lab` and type the lines on the left; its answers stand on the right.

  sender 0                      0             a sender of width 0, whose words are 0 to 7
  send 5 4                      0 -1 -1 1 1   word 5 is sent as the points (-1,-1) and (1,1)
  receiver 0 64 at 0            0             a receiver of the same width, from the state where a sender starts
  piece 64 -120 -131 128 140    1 0 0         it hears them 128 times as large, a little off: 1 taken
  finish 64                     0 1 0 : 5     the line ends: 1 word, and it is 5

The receiver says a word only when no later symbol can change it, so mostly some symbols later.

",
    )
}

fn verbs<P: Print>(to: &P) -> io::Result<()> {
    to.write_all(
        b"What a line can be. Tokens are separated by one space.

  sender U                  opens a sender of width U, 0 to 8. Answer: N
  send W CAP                sends word W, below 2^(3+2U), into an output of CAP places. Answer: N, if 0 then x y x y
  list CAP W W ..           sends words, at most 1024, one after another into an output of CAP places, up to the first refused
                            Answer: SENT N, and if coordinates were written ` :` and the coordinates
  receiver U                opens a receiver with window 32 and a free start: it may join a live line, and the first
                            word then has bits 1 and 2 zero, for the turn before it is not known. Answer: N
  receiver U WINDOW free    the same with a window of 1 to 64 symbols that may wait undecided
  receiver U WINDOW at S    the same from the state S, 0 to 15; a sender starts at 0
  .. square                 ` square` at the end of a sender's or a receiver's line opens it on the square map, which has the even
                            widths alone; without it the line is the round map's. Both ends must name the same
  piece CAP C C C C ..      hears coordinates, four to a symbol, -8192 to 8192, into an output of CAP words
                            Answer: TAKEN WRITTEN N, for a 5 ` place P`, and if words were written ` :` and the words
  marked CAP MARKS C ..     the same with points that never came: MARKS has a digit for each symbol, 0 both points heard, 1 the first
                            missing, 2 the second, 3 both, or is `-` for no symbol; at most 1024. Answer: as for a piece
  finish CAP                ends the line and writes the words that wait. Answer: as for a piece
  sample HEX HEX            a pair of floats by their bits, eight digits each. Answer: X Y, or `5 place P`
  sample missing            a sample that never came. Answer: missing
  pending                   how many symbols wait undecided
  card MAP U N ..           another maker's decoder, MAP `round` or `square`: for N symbols, 0 to 64, 4N coordinates, N + 1 states, Y0, I1,
                            I2', I3', w1, w2 of each symbol, and 16 numbers for the start and after each symbol, which it says are the
                            least sums. Answer: accepted if that sequence is allowed and nearest, else refused
  an empty line, or # ..    answers nothing

",
    )
}

fn numbers<P: Print>(to: &P) -> io::Result<()> {
    to.write_all(
        b"N, the number given back:

  0 done                        6 the window is full: finish, and open again
  1 width above 8, or no map's  7 is given no more
  2 window not 1 to 64          8 the output is shorter than needed
  3 start above 15              9 closed: open it first
  4 no word of this width      10 coordinates not in fours, or other marks
  5 coordinate out of range     ? the line cannot be read, and changes nothing

Numbers are decimal, CAP is at most 4096, and a line at most 65536 bytes.
",
    )
}

pub fn show<P: Print>(to: &P) -> io::Result<()> {
    first_session(to)?;
    verbs(to)?;
    numbers(to)
}
