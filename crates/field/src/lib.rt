// q, sum, difference, negative and product modulo q, and the test whether all numbers of a slice are below q; the laws of congruence, sums
// and linear forms. Every function but `neg_mod` takes any u32; the results are below q.
#![tactic(auto)]

ghost use Rattle.std.specs.Prelude.{◌≡◌, ◌<◌};
ghost use Rattle.lists.specs.Lists.{all_below};
ghost use Rattle.field.specs.Field.{q, add, sub, mul};

use lists::all_below;

// q = 8,380,417, at the two widths in which the code needs it.
pub const Q: u32 = 8380417;

pub const Q64: u64 = 8380417;

// The least multiple of q above every u32: with it added, a difference of two of them is not below 0, and is the same modulo q.
const ABOVE: u64 = 513 * Q64;

// a + b modulo q, of any two numbers.
fn add_any(a: u32, b: u32) -> u32
    ensures { result ≡ add q a b }
{
    ((a as u64 + b as u64) % Q64) as u32
}

// a + b modulo q. Of two numbers below q, as all that a side adds are, the sum is below 2 q: the compiler needs no division. The code has
// no `if` on such numbers, so that no jump depends on them.
pub fn add_mod(a: u32, b: u32) -> u32
    ensures { result ≡ add q a b }
{
    if a >= Q {
        return add_any(a, b);
    }
    if b >= Q {
        return add_any(a, b);
    }
    (a + b) % Q
}

// a - b modulo q, of any two numbers.
fn sub_any(a: u32, b: u32) -> u32
    ensures { result ≡ sub q a b }
{
    ((a as u64 + ABOVE - b as u64) % Q64) as u32
}

// a - b modulo q, likewise.
pub fn sub_mod(a: u32, b: u32) -> u32
    ensures { result ≡ sub q a b }
{
    if a >= Q {
        return sub_any(a, b);
    }
    if b >= Q {
        return sub_any(a, b);
    }
    (a + (Q - b)) % Q
}

// − a modulo q. The dealer calls it of numbers of the draw, which its question 6 has found below q.
pub fn neg_mod(a: u32) -> u32
    requires { a < q }
    ensures { result ≡ sub q 0 a }
{
    if a == 0 {
        return 0;
    }
    Q - a
}

// a × b modulo q.
pub fn mul_mod(a: u32, b: u32) -> u32
    ensures { result ≡ mul q a b }
{
    ((a as u64 * b as u64) % Q64) as u32
}

// Question 6 of a list: is every number below q?
pub fn all_below_q(numbers: &[u32]) -> bool
    ensures { result ≡ all_below q numbers.now }
{
    all_below(numbers, Q)
}
