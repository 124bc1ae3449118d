// What the phone's app, written in Rust, calls: plain arithmetic, products of polynomials and the form test of messages, as C functions on
// numbers and slices. Built as a static library.
#![tactic(auto)]

ghost use Rattle.std.specs.Prelude.{◌≡◌};
ghost use Rattle.rounding.specs.Calls.{parts_call};
ghost use Rattle.settings.specs.Settings.{settings_with};
ghost use Rattle.settings.specs.Sizes.{key_count};
ghost use Rattle.settings.specs.Refusals.{number_of, refused};
ghost use Rattle.message.specs.Message.{form_no};
ghost use Rattle.phone.specs.Codes.{refusal_code, high_code, low_code, parts_code};
ghost use Rattle.ring.specs.Calls.{ring_call, transform_call, transformed_call};

use rounding::parts;
use settings::{Refusal, Settings, Shape};

// What `high_part` and `low_part` give of one coefficient.
#[repr(C)]
#[derive(Clone, Copy)]
pub struct PartsCode {
    pub high: i64,
    pub low: i64,
}

// A refusal as one number.
fn refusal(no: Refusal) -> i64
    ensures { result ≡ refusal_code (number_of no) }
{
    i64::from(no.number()) * 4294967296
}

// The number of the first no, or 0.
fn number(answer: Result<(), Refusal>) -> u32
    ensures { result ≡ refused answer }
{
    match answer {
        Ok(()) => 0,
        Err(no) => no.number(),
    }
}

// The high part of a coefficient, or the number of the first no times 2^32.
#[unsafe(no_mangle)]
pub extern "C" fn high_part(set: u32, w: u32) -> i64
    ensures { result ≡ high_code (parts_call set w) }
{
    match parts(set, w) {
        Ok(pair) => i64::from(pair.high),
        Err(no) => refusal(no),
    }
}

// The low part of a coefficient, signed, or the number of the first no times 2^32.
#[unsafe(no_mangle)]
pub extern "C" fn low_part(set: u32, w: u32) -> i64
    ensures { result ≡ low_code (parts_call set w) }
{
    match parts(set, w) {
        Ok(pair) => i64::from(pair.low),
        Err(no) => refusal(no),
    }
}

// Both parts of a coefficient from one call, each as the call for it alone gives it.
#[unsafe(no_mangle)]
pub extern "C" fn high_and_low(set: u32, w: u32) -> PartsCode
    ensures { result ≡ parts_code (parts_call set w) }
{
    match parts(set, w) {
        Ok(pair) => PartsCode {
            high: i64::from(pair.high),
            low: i64::from(pair.low),
        },
        Err(no) => PartsCode {
            high: refusal(no),
            low: refusal(no),
        },
    }
}

// The form test of a message for a receiver: 0, or the number of the first no.
#[unsafe(no_mangle)]
pub extern "C" fn message_form(
    side: u32,
    set: u32,
    kind: u32,
    n: u32,
    bound: u32,
    round: u32,
    serial: u32,
    message: &[u8],
) -> u32
    ensures { result ≡ form_no key_count side (settings_with set kind n bound) round serial message.now }
{
    let settings = Settings {
        shape: Shape { set, kind, n },
        bound,
    };
    number(message::message_form(side, settings, round, serial, message))
}

// The product of a public polynomial and a row of a shared one, into `out`: 0, or the number of the first no, and nothing is written.
#[unsafe(no_mangle)]
pub extern "C" fn ring_product(public: &[u32], row: &[u32], out: &mut [u32]) -> u32
    ensures { record { refused = result; out = out.new } ≡ ring_call public.now row.now out.old }
{
    number(ring::ring_product(public, row, out))
}

// The transform of a public polynomial, into `out`: 0, or the number of the first no, and nothing is written.
#[unsafe(no_mangle)]
pub extern "C" fn ring_transform(public: &[u32], out: &mut [u32]) -> u32
    ensures { record { refused = result; out = out.new } ≡ transform_call public.now out.old }
{
    number(ring::ring_transform(public, out))
}

// The product of the public polynomial that was transformed and a row, into `out`: 0, or the number of the first no, and nothing is written.
#[unsafe(no_mangle)]
pub extern "C" fn ring_product_transformed(transformed: &[u32], row: &[u32], out: &mut [u32]) -> u32
    ensures { record { refused = result; out = out.new } ≡ transformed_call transformed.now row.now out.old }
{
    number(ring::ring_product_transformed(transformed, row, out))
}
