// Books of shared numbers: where each number stands, and the K and gap of their zero checks; what a draw holds, and both sides' books
// from it. What its functions require the crates above have found out: they ask for places that there are, of a shape that passes questions
// 1 and 2. The dealer has asked these; a side has asked them at begin, and looks at what it kept in every later call.
#![tactic(auto)]

ghost use Rattle.std.specs.Prelude.{◌≡◌, ◌+◌, ◌*◌, ◌/◌, ◌≤◌, ◌<◌};
ghost use Rattle.field.specs.Sums.{sum_to};
ghost use Rattle.settings.specs.Sets.{scale_of, base};
ghost use Rattle.settings.specs.Settings.{params_of};
ghost use Rattle.book.specs.Book.{group_k, group_gap, mask_at, vector_at, triple_at, group_at};

use field::Q;
use settings::{Shape, stride_of};

// ---- Places, counted in shared numbers. Who calls has asked questions 1 and 2.

// Behind the mask of a coefficient: where digit i's vector begins, or for 5 the triples. (The compiler makes one table of a match; it
// would write out a constant array at each call.)
fn start_of(set: u32, i: usize) -> usize
    requires { (set < 2) × (i < 6) }
    ensures { (result ≡ 1 + sum_to i (base (scale_of set))) × (result ≤ 133) }
{
    match 6 * set as usize + i {
        0 => 1,
        1 => 17,
        2 => 33,
        3 => 57,
        4 => 88,
        5 => 133,
        6 => 1,
        7 => 17,
        8 => 49,
        9 => 80,
        10 => 113,
        _ => 130,
    }
}

// Mask r of coefficient j, or for j = n the end of the coefficients.
pub fn mask_at(shape: Shape, j: usize) -> usize
    requires { (shape.set < 2) × (j ≤ 8) }
    ensures { (result ≡ mask_at (params_of shape) j) × (result ≤ 165 * j) }
{
    j * stride_of(shape)
}

// The vector of digit i of r.
pub fn vector_at(shape: Shape, j: usize, i: usize) -> usize
    requires { (shape.set < 2) × (j < 8) × (i < 5) }
    ensures { (result ≡ vector_at (params_of shape) j i) × (result ≤ 1320) }
{
    mask_at(shape, j) + start_of(shape.set, i)
}

// Triple t: a; b and a × b follow.
pub fn triple_at(shape: Shape, j: usize, t: usize) -> usize
    requires { (shape.set < 2) × (j < 8) × (t ≤ 8) }
    ensures { (result ≡ triple_at (params_of shape) j t) × (result ≤ 1320) }
{
    mask_at(shape, j) + start_of(shape.set, 5) + 3 * t
}

// Group g: ρ; its vector follows.
pub fn group_at(shape: Shape, g: usize) -> usize
    requires { (shape.set < 2) × (shape.n ≤ 8) × (g < 8) }
    ensures { (result ≡ group_at (params_of shape) g) × (result ≤ 1320) }
{
    if shape.kind == 0 {
        return triple_at(shape, g, 8);
    }
    mask_at(shape, shape.n as usize)
}

// The K of a zero check.
pub fn group_k(shape: Shape) -> u32
    requires { shape.n ≤ 8 }
    ensures { (result ≡ group_k (params_of shape)) × (result ≤ 8) }
{
    if shape.kind == 0 {
        return 5;
    }
    shape.n
}

// The gap g of a zero check; both sets have the same.
pub fn group_gap(shape: Shape) -> u32
    requires { shape.n ≤ 8 }
    ensures { (result ≡ group_gap (params_of shape)) × (1 ≤ result) }
{
    Q / (group_k(shape) + 1)
}
