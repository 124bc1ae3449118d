// Plain rounding of ML-DSA coefficients: high and low part together, the bound verdict, and the digits of a number.
#![tactic(auto)]

ghost use Rattle.std.specs.Prelude.{◌≡◌, ◌<◌, nat_abs};
ghost use Rattle.field.specs.Field.{q};
ghost use Rattle.settings.specs.Sets.{scale_of};
ghost use Rattle.settings.specs.Refusals.{refused, outcome};
ghost use Rattle.rounding.specs.Plain.{high_low_of, centred};
ghost use Rattle.rounding.specs.Digits.{split_of};
ghost use Rattle.rounding.specs.Calls.{verdict_no, parts_call, verdict_call, verdict_of, JoinTo};

use field::{Q, all_below_q};
use settings::{Refusal, alpha_of, base_of, bound_ok};

// A number and its five digits, lowest first.
#[derive(Clone, Copy)]
pub struct Split {
    pub number: u32,
    pub digits: [u32; 5],
}

// High and signed low part of a coefficient.
#[derive(Clone, Copy)]
pub struct HighLow {
    pub high: u32,
    pub low: i32,
}

// ---- Digits, for the crates above, which ask question 1 first

// A number and its five digits, by the bases that the table has for the set.
fn split_by(set: usize, x: u32) -> Split
    requires { set < 2 }
    ensures { result ≡ split_of (scale_of set) x }
{
    let b0 = base_of(set, 0);
    let b1 = base_of(set, 1);
    let b2 = base_of(set, 2);
    let b3 = base_of(set, 3);
    let x1 = x / b0;
    let x2 = x1 / b1;
    let x3 = x2 / b2;
    let x4 = x3 / b3;
    Split {
        number: x,
        digits: [x % b0, x1 % b1, x2 % b2, x3 % b3, x4],
    }
}

// A number and its five digits (callers: see above). Each branch has constant bases: the compiler divides by multiplying.
pub fn split_number(set: usize, x: u32) -> Split
    requires { set < 2 }
    ensures { result ≡ split_of (scale_of set) x }
{
    if set == 0 {
        return split_by(0, x);
    }
    split_by(1, x)
}

// ---- High and low part

// The parts of a number below q, by the table's step for the set. A sum below q − 1 is w'; for any other w' is q − 1 or below the step:
// the high part is 0 again, and the low part w − q.
fn high_low_by(set: usize, w: u32) -> HighLow
    requires { (set < 2) × (w < q) }
    ensures { result ≡ high_low_of (scale_of set) w }
{
    let alpha = alpha_of(set);
    let half = alpha / 2;
    let sum = w + (half - 1);
    if sum >= Q - 1 {
        return HighLow {
            high: 0,
            low: w as i32 - Q as i32,
        };
    }
    HighLow {
        high: sum / alpha,
        low: (sum % alpha) as i32 - (half - 1) as i32,
    }
}

// The parts of a number below q; each branch has a constant step.
fn high_low_of(set: usize, w: u32) -> HighLow
    requires { (set < 2) × (w < q) }
    ensures { result ≡ high_low_of (scale_of set) w }
{
    if set == 0 {
        return high_low_by(0, w);
    }
    high_low_by(1, w)
}

// High and low part of a coefficient: high × α + low is w modulo q. A yes comes first, so that the compiler puts its code first.
pub fn parts(set: u32, w: u32) -> Result<HighLow, Refusal>
    ensures value { outcome result ≡ parts_call set w }
    ensures join_to { JoinTo set w result }
{
    if set < 2 {
        if w < Q {
            Ok(high_low_of(set as usize, w))
        } else {
            Err(Refusal::NotBelowQ)
        }
    } else {
        Err(Refusal::SideSetOrKind)
    }
}

// ---- Verdict

// The absolute size of a centred number.
fn size(x: u32) -> u32
    ensures { result ≡ nat_abs (centred q x) }
{
    if x <= (Q - 1) / 2 { x } else { x.abs_diff(Q) }
}

// The questions of a verdict.
fn ask_verdict(set: u32, bound: u32, numbers: &[u32]) -> Result<(), Refusal>
    ensures { refused result ≡ verdict_no set bound numbers.now }
{
    if set >= 2 {
        return Err(Refusal::SideSetOrKind);
    }
    if numbers.len() < 1 || numbers.len() > 8 {
        return Err(Refusal::Count);
    }
    if !bound_ok(1, bound) {
        return Err(Refusal::Bound);
    }
    if !all_below_q(numbers) {
        return Err(Refusal::NotBelowQ);
    }
    Ok(())
}

// Has every coefficient, centred, an absolute size below the bound?
pub fn bound_verdict(set: u32, bound: u32, numbers: &[u32]) -> Result<bool, Refusal>
    ensures { verdict_of result ≡ verdict_call set bound numbers.now }
{
    ask_verdict(set, bound, numbers)?;
    Ok(numbers.iter().all(|x| size(*x) < bound))
}
