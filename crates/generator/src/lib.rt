// A generator of 32-bit numbers for tests, and the draws that it gives: the same seed gives the same draws. Its draws are biased.
#![tactic(auto)]

ghost use Rattle.std.specs.Prelude.{◌≡◌, length};
ghost use Rattle.std.specs.Result.{result_unwrap_or};
ghost use Rattle.field.specs.Field.{q};
ghost use Rattle.settings.specs.Refusals.{refused, outcome};
ghost use Rattle.settings.specs.Sizes.{key_count};
ghost use Rattle.generator.specs.Step.{step, stepped, outputs};
ghost use Rattle.generator.specs.Calls.{seed_call, draw_no, draw_call};

use field::Q;
use settings::{Refusal, Shape, ask_shape, draw_length};

// ---- The step

// Exclusive-or with itself shifted left 13, then right 17, then left 5.
fn next_state(x: u32) -> u32
    ensures { result ≡ step x }
{
    let a = x ^ (x << 13);
    let b = a ^ (a >> 17);
    b ^ (b << 5)
}

// ---- A generator, which is lent and advances

#[derive(Clone, Copy)]
pub struct Generator {
    pub state: u32,
}

// A generator that begins at a seed.
pub fn make_generator(seed: u32) -> Result<Generator, Refusal>
    ensures { outcome result ≡ seed_call seed }
{
    if seed < 1 {
        return Err(Refusal::Seed);
    }
    Ok(Generator { state: seed })
}

// The next number: the generator advances.
pub fn next_number(generator: &mut Generator) -> u32
    ensures { (result ≡ step generator.old.state) × (generator.new.state ≡ result) }
{
    generator.state = next_state(generator.state);
    generator.state
}

// ---- The draw

// The next numbers, each modulo q.
fn fill_outputs(generator: &mut Generator, out: &mut [u32])
    ensures { (generator.new.state ≡ stepped (length out.old) generator.old.state)
        × (out.new ≡ outputs q generator.old.state (length out.old)) }
{
    for x in out.iter_mut() {
        *x = next_number(generator) % Q;
    }
}

// The questions of a draw.
fn ask_draw(shape: Shape, out: &[u32]) -> Result<(), Refusal>
    ensures { refused result ≡ draw_no key_count shape out.now }
{
    ask_shape(shape)?;
    if out.len() != draw_length(shape) {
        return Err(Refusal::Length);
    }
    Ok(())
}

// The draw of a generator, which advances.
pub fn draw(generator: &mut Generator, shape: Shape, out: &mut [u32]) -> Result<(), Refusal>
    ensures { record { refused = refused result; state = generator.new.state; out = out.new }
        ≡ draw_call key_count generator.old.state shape out.old }
{
    ask_draw(shape, out)?;
    fill_outputs(generator, out);
    Ok(())
}

// The same, for a caller that keeps the state as a plain number: the state after the draw.
pub fn draw_by(state: u32, shape: Shape, out: &mut [u32]) -> Result<u32, Refusal>
    ensures { record { refused = refused result; state = result_unwrap_or result state; out = out.new } ≡ draw_call key_count state shape out.old }
{
    let mut generator = Generator { state };
    draw(&mut generator, shape, out)?;
    Ok(generator.state)
}
