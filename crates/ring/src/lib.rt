// Products modulo q and modulo X^256 + 1 of a public polynomial and a row of a shared one, by the transform of FIPS 204 (Algorithms 41 and 42) with
// the root 1,753. Products of two numbers are reduced modulo q, sums are not: a number grows by q in each of the eight layers of the transform,
// and doubles in each of the inverse, which stays below 2^31.
#![tactic(auto)]

ghost use Rattle.std.specs.Prelude.{◌≡◌, ℕ, ◌+◌, ◌-◌, ◌*◌, ◌^◌, ◌<◌, ◌≤◌, length, get_or, IfOk};
ghost use Rattle.field.specs.Field.{q};
ghost use Rattle.settings.specs.Refusals.{refused};
ghost use Rattle.ring.specs.Product.{product as product_of};
ghost use Rattle.ring.specs.Factors.{factor as factor_of};
ghost use Rattle.ring.specs.Ntt.{Rule, block, ntt, inverse_ntt, pointwise, scaled};
ghost use Rattle.ring.specs.Calls.{ring_no, transform_no, ring_call, transform_call, transformed_call};
ghost use Rattle.ring.specs.Layers.{layer, forward_factor, inverse_factor, lazy_low, lazy_high, lazy_inverse_low, lazy_inverse_high, lazy_to, lazy_inverse_from, reduced, Below, Row, limit};

use field::{Q, all_below_q, mul_mod};
use settings::Refusal;

// Entry i is 1,753 to the power of i with its eight bits reversed, modulo q. Program `factors` writes this list.
#[rattlefmt::skip]
static FACTORS: [u32; 256] = [
    1,
    4808194,
    3765607,
    3761513,
    5178923,
    5496691,
    5234739,
    5178987,
    7778734,
    3542485,
    2682288,
    2129892,
    3764867,
    7375178,
    557458,
    7159240,
    5010068,
    4317364,
    2663378,
    6705802,
    4855975,
    7946292,
    676590,
    7044481,
    5152541,
    1714295,
    2453983,
    1460718,
    7737789,
    4795319,
    2815639,
    2283733,
    3602218,
    3182878,
    2740543,
    4793971,
    5269599,
    2101410,
    3704823,
    1159875,
    394148,
    928749,
    1095468,
    4874037,
    2071829,
    4361428,
    3241972,
    2156050,
    3415069,
    1759347,
    7562881,
    4805951,
    3756790,
    6444618,
    6663429,
    4430364,
    5483103,
    3192354,
    556856,
    3870317,
    2917338,
    1853806,
    3345963,
    1858416,
    3073009,
    1277625,
    5744944,
    3852015,
    4183372,
    5157610,
    5258977,
    8106357,
    2508980,
    2028118,
    1937570,
    4564692,
    2811291,
    5396636,
    7270901,
    4158088,
    1528066,
    482649,
    1148858,
    5418153,
    7814814,
    169688,
    2462444,
    5046034,
    4213992,
    4892034,
    1987814,
    5183169,
    1736313,
    235407,
    5130263,
    3258457,
    5801164,
    1787943,
    5989328,
    6125690,
    3482206,
    4197502,
    7080401,
    6018354,
    7062739,
    2461387,
    3035980,
    621164,
    3901472,
    7153756,
    2925816,
    3374250,
    1356448,
    5604662,
    2683270,
    5601629,
    4912752,
    2312838,
    7727142,
    7921254,
    348812,
    8052569,
    1011223,
    6026202,
    4561790,
    6458164,
    6143691,
    1744507,
    1753,
    6444997,
    5720892,
    6924527,
    2660408,
    6600190,
    8321269,
    2772600,
    1182243,
    87208,
    636927,
    4415111,
    4423672,
    6084020,
    5095502,
    4663471,
    8352605,
    822541,
    1009365,
    5926272,
    6400920,
    1596822,
    4423473,
    4620952,
    6695264,
    4969849,
    2678278,
    4611469,
    4829411,
    635956,
    8129971,
    5925040,
    4234153,
    6607829,
    2192938,
    6653329,
    2387513,
    4768667,
    8111961,
    5199961,
    3747250,
    2296099,
    1239911,
    4541938,
    3195676,
    2642980,
    1254190,
    8368000,
    2998219,
    141835,
    8291116,
    2513018,
    7025525,
    613238,
    7070156,
    6161950,
    7921677,
    6458423,
    4040196,
    4908348,
    2039144,
    6500539,
    7561656,
    6201452,
    6757063,
    2105286,
    6006015,
    6346610,
    586241,
    7200804,
    527981,
    5637006,
    6903432,
    1994046,
    2491325,
    6987258,
    507927,
    7192532,
    7655613,
    6545891,
    5346675,
    8041997,
    2647994,
    3009748,
    5767564,
    4148469,
    749577,
    4357667,
    3980599,
    2569011,
    6764887,
    1723229,
    1665318,
    2028038,
    1163598,
    5011144,
    3994671,
    8368538,
    7009900,
    3020393,
    3363542,
    214880,
    545376,
    7609976,
    3105558,
    7277073,
    508145,
    7826699,
    860144,
    3430436,
    140244,
    6866265,
    6195333,
    3123762,
    2358373,
    6187330,
    5365997,
    6663603,
    2926054,
    7987710,
    8077412,
    3531229,
    4405932,
    4606686,
    1900052,
    7598542,
    1054478,
    7648983,
];

// How many numbers a row has.
const SIZE: usize = 256;

// How many layers the transform has.
const LAYERS: usize = 8;

// 1/256 modulo q.
const SCALE: u32 = 8347681;

// 2 to the power k.
fn power(k: usize) -> usize
    requires { k < 8 }
    ensures { (result ≡ 2 ^ k) × (result ≤ 128) }
{
    1 << k
}

// Entry i of the factor list.
fn factor(i: usize) -> u32
    requires { i < 256 }
    ensures { result ≡ factor_of i }
{
    FACTORS[i]
}

// ---- The layers of the transform and of its inverse

// What becomes of the numbers x and y of a pair with the factor z, and which factor a block has.
trait Direction {
    ghost low: { Self → Rule };

    ghost high: { Self → Rule };

    // The numbers of a pair are below this.
    ghost limit: { Self → ℕ };

    ghost factor: { ℕ → ℕ → ℕ };

    fn pair(&self, z: u32, x: u32, y: u32) -> (u32, u32)
        requires { (x < limit self.now) × (y < limit self.now) }
        ensures { (result.0 ≡ low self.now z x y) × (result.1 ≡ high self.now z x y) };

    // The factor of block n in a layer of so many blocks.
    fn factor(&self, blocks: usize, n: usize) -> u32
        requires { (n < blocks) × (blocks ≤ 128) }
        ensures { result ≡ factor blocks n };
}

// x + z y and x - z y, raised by q.
#[derive(Clone, Copy)]
struct Transform;

impl Direction for Transform {
    ghost low = { λ _. lazy_low };

    ghost high = { λ _. lazy_high };

    ghost limit = { λ _. limit };

    ghost factor = { forward_factor };

    fn pair(&self, z: u32, x: u32, y: u32) -> (u32, u32) {
        let t = mul_mod(z, y);
        (x + t, x + (Q - t))
    }

    fn factor(&self, blocks: usize, n: usize) -> u32 {
        factor(blocks + n)
    }
}

// x + y and z (x - y), raised by `above`, a multiple of q above both. The factors are those of the list backwards, negated.
#[derive(Clone, Copy)]
struct InverseTransform {
    above: u32,
    ghost doubled: { above + above ≤ 2 ^ 32 },
}

impl Direction for InverseTransform {
    ghost low = { λ _. lazy_inverse_low };

    ghost high = { λ d. lazy_inverse_high d.above };

    ghost limit = { λ d. d.above };

    ghost factor = { inverse_factor };

    fn pair(&self, z: u32, x: u32, y: u32) -> (u32, u32) {
        (x + y, mul_mod(z, x + (self.above - y)))
    }

    fn factor(&self, blocks: usize, n: usize) -> u32 {
        Q - factor(blocks + (blocks - 1 - n))
    }
}

// The pairs of the block that starts at a place.
fn block<D: Direction>(d: &D, w: &mut [u32; SIZE], half: usize, z: u32, start: usize)
    requires { (start + (half + half) ≤ 256) × ((i : ℕ) → start ≤ i → get_or w.old i 0 < D.limit d.now) }
    ensures { w.new ≡ block (D.low d.now) (D.high d.now) half z start half w.old }
{
    for n in 0..half {
        let (x, y) = d.pair(z, w[start + n], w[start + n + half]);
        w[start + n + half] = y;
        w[start + n] = x;
    }
}

// The blocks of a layer.
fn layer<D: Direction>(d: &D, w: &mut [u32; SIZE], half: usize, blocks: usize)
    requires { (blocks * half ≡ 128) × Below (D.limit d.now) w.old }
    ensures { w.new ≡ layer (D.low d.now) (D.high d.now) half (D.factor blocks) blocks w.old }
{
    for n in 0..blocks {
        block(d, w, half, d.factor(blocks, n), n * (2 * half));
    }
}

// The transform of 256 numbers below q, in place, not reduced: the numbers are below 9 q.
fn forward(w: &mut [u32; SIZE])
    requires { Below q w.old }
    ensures { w.new ≡ lazy_to 8 w.old }
{
    for n in 0..LAYERS {
        layer(&Transform, w, power(7 - n), power(n));
    }
}

// The layers of the inverse, the last first, of 256 numbers below q. Before layer n the numbers are below half × q.
fn inverse_layers(w: &mut [u32; SIZE])
    requires { Below q w.old }
    ensures { w.new ≡ lazy_inverse_from 8 w.old }
{
    for n in (0..LAYERS).rev() {
        let half = power(7 - n);
        let above = half as u32 * Q;
        layer(&InverseTransform { above }, w, half, power(n));
    }
}

// Every number times 1/256, reduced.
fn scale(w: &mut [u32; SIZE])
    ensures { w.new ≡ scaled w.old }
{
    for x in w.iter_mut() {
        *x = mul_mod(SCALE, *x);
    }
}

// The inverse transform of 256 numbers below q, in place.
fn inverse(w: &mut [u32; SIZE])
    requires { Below q w.old }
    ensures { w.new ≡ inverse_ntt w.old }
{
    inverse_layers(w);
    scale(w);
}

// ---- Products

// Number by number, into the second, reduced.
fn multiply(u: &[u32; SIZE], v: &mut [u32; SIZE])
    ensures { v.new ≡ pointwise u.now v.old }
{
    for (i, x) in v.iter_mut().enumerate() {
        *x = mul_mod(u[i], *x);
    }
}

// The transform of a row of 256 numbers below q, not reduced. The row is copied number by number: a copy of the whole array would be a call of
// memcpy, which the phone's archive would then need from outside.
fn unreduced(row: &[u32; SIZE], out: &mut [u32; SIZE])
    requires { Below q row.now }
    ensures { out.new ≡ lazy_to 8 row.now }
{
    for (i, x) in out.iter_mut().enumerate() {
        *x = row[i];
    }
    forward(out);
}

// The product of a row and of what `left` is the transform of, reduced or not.
fn product_with(left: &[u32; SIZE], row: &[u32; SIZE], out: &mut [u32; SIZE])
    requires { Below q row.now }
    ensures { out.new ≡ inverse_ntt (pointwise left.now (ntt row.now)) }
{
    unreduced(row, out);
    multiply(left, out);
    inverse(out);
}

// The product of two rows of 256 numbers below q.
fn product(public: &[u32; SIZE], row: &[u32; SIZE], out: &mut [u32; SIZE])
    requires { Below q public.now × Below q row.now }
    ensures { out.new ≡ product_of public.now row.now }
{
    let mut left = [0u32; SIZE];
    unreduced(public, &mut left);
    product_with(&left, row, out);
}

// Each number modulo q.
fn reduce(w: &mut [u32; SIZE])
    ensures { w.new ≡ reduced w.old }
{
    for x in w.iter_mut() {
        *x %= Q;
    }
}

// ---- The calls

// 256 numbers, whose length was asked.
fn whole(numbers: &[u32]) -> &[u32; SIZE]
    requires { length numbers.now ≡ 256 }
    ensures { result.now ≡ numbers.now }
{
    numbers.try_into().unwrap()
}

// Questions 5 and 6 of both factors and the output.
#[tactic(auto, using(crate::proofs::Ready::low))]
fn ask_ring(public: &[u32], row: &[u32], out: &[u32]) -> Result<(), Refusal>
    ensures asked { refused result ≡ ring_no public.now row.now out.now }
    ensures ready { IfOk result (λ _. Row public.now × Row row.now × (length out.now ≡ 256)) }
{
    if public.len() != SIZE || row.len() != SIZE || out.len() != SIZE {
        return Err(Refusal::Length);
    }
    if !all_below_q(public) || !all_below_q(row) {
        return Err(Refusal::NotBelowQ);
    }
    Ok(())
}

// The product of a public polynomial and a row of a shared one, into `out`. A refusal writes nothing.
pub fn ring_product(public: &[u32], row: &[u32], out: &mut [u32]) -> Result<(), Refusal>
    ensures { record { refused = refused result; out = out.new } ≡ ring_call public.now row.now out.old }
{
    ask_ring(public, row, out)?;
    product(whole(public), whole(row), out.as_mut_array().unwrap());
    Ok(())
}

// Questions 5 and 6 of a polynomial and the output.
#[tactic(auto, using(crate::proofs::Ready::low))]
fn ask_transform(public: &[u32], out: &[u32]) -> Result<(), Refusal>
    ensures asked { refused result ≡ transform_no public.now out.now }
    ensures ready { IfOk result (λ _. Row public.now × (length out.now ≡ 256)) }
{
    if public.len() != SIZE || out.len() != SIZE {
        return Err(Refusal::Length);
    }
    if !all_below_q(public) {
        return Err(Refusal::NotBelowQ);
    }
    Ok(())
}

// The transform of a public polynomial, into `out`, for `ring_product_transformed`. A refusal writes nothing.
pub fn ring_transform(public: &[u32], out: &mut [u32]) -> Result<(), Refusal>
    ensures { record { refused = refused result; out = out.new } ≡ transform_call public.now out.old }
{
    ask_transform(public, out)?;
    let out = out.as_mut_array().unwrap();
    unreduced(whole(public), out);
    reduce(out);
    Ok(())
}

// The product of the public polynomial that was transformed and a row of a shared one, into `out`. A refusal writes nothing.
pub fn ring_product_transformed(
    transformed: &[u32],
    row: &[u32],
    out: &mut [u32],
) -> Result<(), Refusal>
    ensures { record { refused = refused result; out = out.new } ≡ transformed_call transformed.now row.now out.old }
{
    ask_ring(transformed, row, out)?;
    product_with(whole(transformed), whole(row), out.as_mut_array().unwrap());
    Ok(())
}
