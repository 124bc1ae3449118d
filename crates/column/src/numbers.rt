// What the registers after a round are made of.

ghost use Rattle.column.specs.Numbers.{Fitting};

// The slice as it was, its columns' weights, this side's own numbers for the openings, and the opened numbers.
#[derive(Clone, Copy)]
pub struct RoundNumbers<'a> {
    pub work: &'a [u32],
    pub weights: &'a [u32],
    pub own: &'a [u32],
    pub opened: &'a [u32],
    ghost fitting: { Fitting work.now weights.now own.now opened.now },
}
