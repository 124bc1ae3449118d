// The words for lists and answers in which the meaning of the product is written, and their laws; and the functions over slices that
// several crates need: a test of every number, copying, and the length before a byte.
#![tactic(auto)]

ghost use Rattle.std.specs.Prelude.{◌≡◌, not, ℕ, ◌+◌, ◌≤◌, eqb, length, get_or, drop};
ghost use Rattle.std.proofs.Math.Seq.{paste};
ghost use Rattle.lists.specs.Lists.{every, all_below, fill, length_before};

// The bytes of a block: two of the vectors that every x86-64 has.
const BLOCK: usize = 32;

// Is every number below the limit? None is passed over after a first no, so that several are compared at a time.
pub fn all_below(numbers: &[u32], limit: u32) -> bool
    ensures { result ≡ all_below limit numbers.now }
{
    !numbers.iter().fold(false, |found, x| found | (*x >= limit))
}

// `from`, to the places of `to` from `at` on. The caller knows that there are so many.
pub fn copy_part<T: Copy>(to: &mut [T], at: usize, from: &[T])
    requires { at + length from.now ≤ length to.old }
    ensures { to.new ≡ paste to.old at from.now (length from.now) }
{
    to[at..at + from.len()].copy_from_slice(from);
}

// n numbers of `from` from place `first` on, to the places of `to` from `at` on. The caller knows that there are so many in both.
#[tactic(auto, using(crate::proofs::Fill::paste_part))]
pub fn copy_numbers(to: &mut [u32], at: usize, from: &[u32], first: usize, n: usize)
    requires { (at + n ≤ length to.old) × (first + n ≤ length from.now) }
    ensures { to.new ≡ fill to.old at n (λ (j : ℕ). get_or from.now (first + j) 0) }
{
    copy_part(to, at, &from[first..first + n]);
}

// How many bytes stand before the first that equals `byte`; all, where there is none.
pub fn length_before(bytes: &[u8], byte: u8) -> usize
    ensures { (result ≡ length_before byte bytes.now) × (result ≤ length bytes.now) }
{
    bytes.iter().position(|x| *x == byte).unwrap_or(bytes.len())
}

// Is `byte` nowhere in the block? None of its bytes is passed over after a first match, so that several are compared at a time.
fn lacks(block: &[u8], byte: u8) -> bool
    ensures { result ≡ every (λ (x : ℕ). not (eqb x byte)) block.now }
{
    !block.iter().fold(false, |found, x| found | (*x == byte))
}

// The same as `length_before`: faster where the byte is some blocks off, and slower where it is near.
pub fn length_before_by_blocks(bytes: &[u8], byte: u8) -> usize
    ensures { (result ≡ length_before byte bytes.now) × (result ≤ length bytes.now) }
{
    let mut passed = 0;
    for block in bytes.chunks_exact(BLOCK) {
        if !lacks(block, byte) {
            break;
        }
        passed += BLOCK;
    }
    passed + length_before(&bytes[passed..], byte)
}
