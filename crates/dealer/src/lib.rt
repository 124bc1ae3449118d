// The deal: its questions, and both sides' books from a draw.
#![tactic(auto)]

ghost use Rattle.std.specs.Prelude.{◌≡◌, true, ◌&&◌, ℕ, ◌+◌, ◌*◌, ◌/◌, ◌≤◌, ◌<◌, eqb, length, get_or};
ghost use Rattle.lists.specs.Lists.{fill, all_below};
ghost use Rattle.field.specs.Field.{q, sub};
ghost use Rattle.field.specs.Sums.{sum_to};
ghost use Rattle.settings.specs.Sets.{base};
ghost use Rattle.settings.specs.Settings.{params_of};
ghost use Rattle.settings.specs.Sizes.{key_count, width, shared, stride, draw_length, groups};
ghost use Rattle.settings.specs.Refusals.{refused};
ghost use Rattle.rounding.specs.Digits.{split_of};
ghost use Rattle.book.specs.Book.{group_k, mask_at, vector_at, triple_at, group_at, drawn};
ghost use Rattle.dealer.specs.Deal.{deal_no, deal_call};
ghost use Rattle.dealer.specs.Work.{Lent};

use book::{group_at, group_gap, group_k, mask_at, triple_at, vector_at};
use field::{all_below_q, mul_mod, neg_mod, sub_mod};
use rounding::{Split, split_number};
use settings::{
    KEYS, Refusal, Shape, WIDTH, ask_shape, base_of, draw_length, for_columns, keys_ok, shared_of,
};

// ---- The deal's work

// A deal at work: what it is told, the draw, both lent books, and where the next place's numbers begin in the draw.
#[derive(Drop)]
struct Dealing<'a> {
    shape: Shape,
    // What each column's numbers add up to, as a factor.
    factors: [u32; WIDTH],
    draw: &'a [u32],
    server: &'a mut [u32],
    phone: &'a mut [u32],
    next: usize,
    ghost lent: { Lent shape draw.now server.now phone.now },
}

// The server's numbers of places that hold 0: the phone's, negated.
fn put_negatives(server: &mut [u32], phone: &[u32])
    requires { (length server.old ≡ length phone.now) × (all_below q phone.now ≡ true) }
    ensures { server.new ≡ fill server.old 0 (length phone.now) (λ (i : ℕ). sub q 0 (get_or phone.now i 0)) }
{
    for (i, x) in server.iter_mut().enumerate() {
        *x = neg_mod(phone[i]);
    }
}

impl<'a> Dealing<'a> {
    ghost use Rattle.dealer.specs.Work.{Next, Draws, Vector};
    ghost use Rattle.dealer.specs.Runs.{context_of, params, At, Put, Wrote};

    // The columns of place k, with the joined value `value`; its own numbers begin at `at`.
    fn put_place(&mut self, k: usize, at: usize, value: u32)
        requires { Next (context_of self.old) k at value }
        ensures { Put self.old k 1 self.new × (self.new.next ≡ self.old.next) }
    {
        for c in 0..WIDTH {
            let own = self.draw[at + c];
            self.phone[WIDTH * k + c] = own;
            self.server[WIDTH * k + c] = sub_mod(mul_mod(self.factors[c], value), own);
        }
    }

    // Place k, with the joined value `value`.
    fn deal_place(&mut self, k: usize, value: u32)
        requires { Next (context_of self.old) k self.old.next value }
        ensures { Wrote self.old k 1 self.new }
    {
        self.put_place(k, self.next, value);
        self.next += WIDTH;
    }

    // Place k, which holds a drawn number: it stands just before the place's own numbers.
    fn deal_drawn(&mut self, k: usize) -> u32
        requires { Draws (context_of self.old) k × At self.old k }
        ensures wrote { Wrote self.old k 1 self.new }
        ensures value { result ≡ drawn (params self.old) width self.old.draw.now k }
    {
        let value = self.draw[self.next];
        self.next += 1;
        self.deal_place(k, value);
        value
    }

    // The vector of d, from place k on: all places as if they held 0, several numbers at a time; then the place that holds 1. (A d behind
    // the vector's end has no place: no digit is such, but nothing here need know it.)
    fn deal_vector(&mut self, k: usize, size: usize, d: u32)
        requires { Vector (context_of self.old) k size d × At self.old k }
        ensures { Wrote self.old k size self.new }
    {
        let at = self.next;
        self.next += WIDTH * size;
        let own = &self.draw[at..self.next];
        let place = WIDTH * k;
        let end = place + own.len();
        self.phone[place..end].copy_from_slice(own);
        put_negatives(&mut self.server[place..end], own);
        let one = d as usize;
        if one < size {
            self.put_place(k + one, at + WIDTH * one, 1);
        }
    }

    // The vectors of r's five digits, r being the mask of coefficient c.
    fn deal_vectors(&mut self, c: usize, r: Split)
        requires { (c < self.old.shape.n) × At self.old (vector_at (params self.old) c 0)
            × (r ≡ split_of (params self.old).scale (drawn (params self.old) width self.old.draw.now (mask_at (params self.old) c))) }
        ensures { Wrote self.old (vector_at (params self.old) c 0) (sum_to 5 (base (params self.old).scale)) self.new }
    {
        for i in 0..5 {
            let size = base_of(self.shape.set as usize, i) as usize;
            self.deal_vector(vector_at(self.shape, c, i), size, r.digits[i]);
        }
    }

    // Mask r of coefficient c, and the vectors of its digits.
    fn deal_mask(&mut self, c: usize)
        requires { (c < self.old.shape.n) × At self.old (mask_at (params self.old) c) }
        ensures { Wrote self.old (mask_at (params self.old) c) (1 + sum_to 5 (base (params self.old).scale)) self.new }
    {
        let shape = self.shape;
        let r = self.deal_drawn(mask_at(shape, c));
        self.deal_vectors(c, split_number(shape.set as usize, r));
    }

    // Triple t of coefficient c: a, b and a × b.
    fn deal_triple(&mut self, c: usize, t: usize)
        requires { (c < self.old.shape.n) × (t < 8) × At self.old (triple_at (params self.old) c t) }
        ensures { Wrote self.old (triple_at (params self.old) c t) 3 self.new }
    {
        let k = triple_at(self.shape, c, t);
        let a = self.deal_drawn(k);
        let b = self.deal_drawn(k + 1);
        self.deal_place(k + 2, mul_mod(a, b));
    }

    // The eight triples of coefficient c.
    fn deal_triples(&mut self, c: usize)
        requires { (c < self.old.shape.n) × At self.old (triple_at (params self.old) c 0) }
        ensures { Wrote self.old (triple_at (params self.old) c 0) 24 self.new }
    {
        for t in 0..8 {
            self.deal_triple(c, t);
        }
    }

    // Group g: ρ, and the vector of ρ divided by the gap.
    fn deal_group(&mut self, g: usize)
        requires { (g < groups (params self.old)) × At self.old (group_at (params self.old) g) }
        ensures { Wrote self.old (group_at (params self.old) g) (group_k (params self.old) + 3) self.new }
    {
        let shape = self.shape;
        let k = group_at(shape, g);
        let rho = self.deal_drawn(k);
        self.deal_vector(k + 1, group_k(shape) as usize + 2, rho / group_gap(shape));
    }

    // All places of coefficient c.
    fn deal_coefficient(&mut self, c: usize)
        requires { (c < self.old.shape.n) × At self.old (mask_at (params self.old) c) }
        ensures { Wrote self.old (mask_at (params self.old) c) (stride (params self.old)) self.new }
    {
        let kind = self.shape.kind;
        self.deal_mask(c);
        self.deal_triples(c);
        if kind == 0 {
            self.deal_group(c);
        }
    }

    // Both books.
    fn deal_books(&mut self)
        requires { At self.old 0 }
        ensures { Wrote self.old 0 (shared (params self.old)) self.new }
    {
        let shape = self.shape;
        for c in 0..shape.n as usize {
            self.deal_coefficient(c);
        }
        if shape.kind != 0 {
            self.deal_group(0);
        }
    }
}

// ---- The call

// Question 5: the draw, and the two lent books. (`ask_deal` has asked 1 and 2.)
fn lengths_ok(shape: Shape, draw: &[u32], server: &[u32], phone: &[u32]) -> bool
    requires { (shape.set < 2) × (shape.n ≤ 8) }
    ensures { result ≡ (eqb (length draw.now) (draw_length (params_of shape) width)
        && eqb (length server.now) (shared (params_of shape) * width)
        && eqb (length phone.now) (shared (params_of shape) * width)) }
{
    let size = shared_of(shape) * WIDTH;
    draw.len() == draw_length(shape) && server.len() == size && phone.len() == size
}

// The questions of a deal.
fn ask_deal(
    shape: Shape,
    keys0: [u32; KEYS],
    keys1: [u32; KEYS],
    draw: &[u32],
    server: &[u32],
    phone: &[u32],
) -> Result<(), Refusal>
    ensures { refused result ≡ deal_no key_count shape keys0 keys1 draw.now server.now phone.now }
{
    ask_shape(shape)?;
    if !keys_ok(keys0) || !keys_ok(keys1) {
        return Err(Refusal::Key);
    }
    if !lengths_ok(shape, draw, server, phone) {
        return Err(Refusal::Length);
    }
    if !all_below_q(draw) {
        return Err(Refusal::NotBelowQ);
    }
    Ok(())
}

// Both sides' books from a draw.
pub fn deal(
    shape: Shape,
    keys0: [u32; KEYS],
    keys1: [u32; KEYS],
    draw: &[u32],
    server: &mut [u32],
    phone: &mut [u32],
) -> Result<(), Refusal>
    ensures { record { refused = refused result; server = server.new; phone = phone.new }
        ≡ deal_call key_count shape keys0 keys1 draw.now server.old phone.old }
{
    ask_deal(shape, keys0, keys1, draw, server, phone)?;
    let mut dealing = Dealing {
        shape,
        factors: for_columns(1, keys0, keys1),
        draw,
        server,
        phone,
        next: 0,
    };
    dealing.deal_books();
    Ok(())
}
