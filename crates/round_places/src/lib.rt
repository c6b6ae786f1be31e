// The A points by place: which number stands where, and the rim of each width.
//
// The A points stand on a lattice, 4 apart. Around the middle one, (1, 1), 19 by 19 places have all of the 256 points. A view looks
// from the middle into a quarter, along one of its sides: 4 for left, 2 for down, 1 for along y. Column m and row e of a view are m
// places along that side and e places beside it. The rim of a width in a view is its last four columns, each with its last row.
// What holds of places and rims is in proofs/Rule, by tests that the checker computes over the whole table.
//
// One table of 521 numbers. First the numbers of the points by place, from the left, each from below. Where none of the 256 stands
// there are 254 and 255 in turn: at four equal numbers in a row the compiler would take the copying of the table to pieces. Then, for
// the widths from 5 on, each view and each of four columns, 16 times the column and its last row; where a view has three, the last one
// twice. Then the coordinates of the first 16 points, counted from 95 below zero. A caller makes it once by `table` and lends it: one
// list, `listed`, as the definitions and theorems have it, so that one borrow serves every search.
#![tactic(auto)]

ghost use Rattle.std.specs.Prelude.{◌≡◌, ◌<◌, ◌≤◌, get_or, pos, ◌-ℤ◌};
ghost use Rattle.points.specs.Points.{a_point};
ghost use Rattle.round_places.specs.Places.{listed, Wide, rim_of};

use points::Point;

const TABLE: [u8; 521] = [
    254, 255, 254, 255, 254, 255, 254, 251, 240, 238, 244, 255, 255, 254, 255, 254, 255, 254, 255,
    254, 255, 254, 255, 254, 232, 210, 199, 190, 186, 194, 203, 222, 243, 255, 254, 255, 254, 255,
    254, 255, 254, 249, 214, 183, 167, 152, 144, 142, 148, 158, 177, 201, 229, 255, 254, 255, 254,
    255, 254, 250, 205, 175, 149, 128, 113, 106, 103, 108, 119, 135, 160, 189, 226, 255, 254, 255,
    254, 255, 215, 176, 139, 115, 94, 80, 73, 69, 75, 84, 102, 126, 156, 193, 234, 254, 255, 254,
    233, 184, 150, 116, 89, 67, 52, 45, 43, 50, 60, 77, 98, 131, 165, 206, 255, 254, 255, 211, 169,
    130, 95, 68, 47, 33, 25, 22, 28, 39, 55, 79, 110, 146, 185, 236, 254, 252, 200, 153, 114, 82,
    53, 34, 19, 11, 9, 13, 24, 41, 64, 96, 133, 173, 224, 255, 241, 192, 145, 107, 74, 46, 27, 12,
    3, 1, 6, 17, 35, 58, 87, 123, 164, 216, 254, 239, 188, 143, 105, 70, 44, 23, 10, 2, 0, 4, 15,
    31, 54, 83, 121, 162, 212, 255, 246, 196, 151, 109, 76, 51, 29, 14, 7, 5, 8, 20, 37, 62, 92,
    125, 170, 218, 254, 255, 204, 159, 120, 86, 61, 40, 26, 18, 16, 21, 30, 48, 71, 100, 137, 181,
    228, 254, 255, 223, 178, 136, 104, 78, 57, 42, 36, 32, 38, 49, 65, 90, 117, 154, 197, 247, 254,
    255, 245, 202, 161, 129, 99, 81, 66, 59, 56, 63, 72, 91, 112, 140, 179, 220, 254, 255, 254,
    255, 231, 191, 157, 132, 111, 97, 88, 85, 93, 101, 118, 141, 172, 207, 253, 254, 255, 254, 255,
    254, 227, 195, 168, 147, 134, 124, 122, 127, 138, 155, 180, 208, 242, 255, 254, 255, 254, 255,
    254, 255, 235, 209, 187, 174, 166, 163, 171, 182, 198, 221, 254, 254, 255, 254, 255, 254, 255,
    254, 255, 254, 255, 237, 225, 217, 213, 219, 230, 248, 254, 255, 254, 255, 254, 255, 254, 255,
    254, 255, 254, 255, 254, 255, 254, 255, 254, 255, 254, 255, 254, 255, 254, 255, 254, 3, 18, 34,
    34, 2, 18, 34, 48, 3, 19, 34, 34, 2, 18, 34, 49, 3, 18, 34, 49, 3, 19, 34, 48, 3, 19, 34, 49,
    3, 19, 34, 49, 20, 35, 50, 65, 20, 35, 50, 65, 20, 36, 51, 65, 20, 35, 51, 66, 20, 35, 51, 66,
    20, 36, 51, 65, 20, 36, 51, 66, 20, 36, 51, 66, 53, 68, 83, 97, 53, 68, 83, 97, 53, 68, 83, 97,
    53, 68, 83, 98, 53, 68, 84, 98, 53, 69, 83, 97, 53, 69, 84, 98, 53, 69, 84, 98, 87, 102, 117,
    131, 87, 102, 117, 131, 87, 102, 117, 131, 102, 117, 132, 145, 102, 117, 132, 146, 87, 102,
    117, 131, 103, 118, 132, 146, 103, 118, 132, 146, 96, 96, 92, 96, 96, 92, 92, 92, 96, 100, 100,
    96, 92, 100, 100, 92, 100, 100, 88, 96, 96, 88, 88, 92, 92, 88, 88, 100, 100, 88, 96, 104,
];

pub fn table() -> [u8; 521]
    ensures { result ≡ listed }
{
    TABLE
}

// The number at a place of the table.
pub fn number(t: &[u8; 521], k: u32) -> u32
    requires { (t.now ≡ listed) × (k < 521) }
    ensures { result ≡ get_or listed k 0 }
{
    u32::from(t[k as usize])
}

// The i-th column of the rim of width u in view o: 16 times the column, and its last row.
pub fn rim(t: &[u8; 521], u: u32, o: u32, i: u32) -> u32
    requires { (t.now ≡ listed) × Wide u × (o < 8) × (i < 4) }
    ensures { result ≡ rim_of u o i }
{
    number(t, 361 + ((u - 5) * 8 + o) * 4 + i)
}

// A coordinate, counted from 95 below zero. Eight bits hold the difference, so that a search takes sixteen at a time.
fn uncounted(b: u8) -> i32
    requires { b < 128 }
    ensures { result ≡ pos b -ℤ pos 95 }
{
    i32::from(b as i8 - 95)
}

// The A point number w, of the first 16.
pub fn near_point(t: &[u8; 521], w: usize) -> Point
    requires { (t.now ≡ listed) × (w < 16) }
    ensures { result ≡ a_point w }
{
    Point {
        x: uncounted(t[489 + w * 2]),
        y: uncounted(t[490 + w * 2]),
    }
}
