//! The generator of numbers.
ghost use Rattle.std.specs.Prelude.{◌≡◌, ◌<◌};
ghost use Rattle.sample_town.specs.Draws.{after_draw, drawn, drawn_below};

/// What the state is multiplied by at each draw.
const FACTOR: u64 = 6_364_136_223_846_793_005;

/// What is added to the product.
const SUMMAND: u64 = 1_442_695_040_888_963_407;

/// How many low bits of the state a draw leaves out.
const LEFT_OUT: u32 = 33;

/// The generator of a town's numbers, and the state that it has come to: at first the town's number.
#[derive(Clone, Copy)]
pub struct Draws {
    /// A number below 2^64, of which any may be the first one.
    pub state: u64,
}

impl Draws {
    /// The next number, below 2^31.
    #[tactic(auto, unfolding(crate::specs::Draws::after_draw, crate::specs::Draws::drawn))]
    pub fn draw(&mut self) -> u32
        ensures value { result ≡ drawn self.old.state }
        ensures state { self.new.state ≡ after_draw self.old.state }
    {
        self.state = self.state.wrapping_mul(FACTOR).wrapping_add(SUMMAND);
        (self.state >> LEFT_OUT) as u32
    }

    /// The next number, modulo the count, which isn't 0.
    #[tactic(auto, unfolding(crate::specs::Draws::drawn_below))]
    pub fn below(&mut self, count: u32) -> u32
        requires { 0 < count }
        ensures value { result ≡ drawn_below count self.old.state }
        ensures bound { result < count }
        ensures state { self.new.state ≡ after_draw self.old.state }
    {
        self.draw() % count
    }
}
