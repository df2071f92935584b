// Numbers drawn by a linear congruential generator.
ghost use Rattle.std.specs.Prelude.{◌≡◌, ◌<◌};
ghost use Rattle.ballot_make.specs.Made.{lesser_drawn, next_state, number_drawn, state_after};

// The multiplier and the increment of Knuth's MMIX.
const MULTIPLIER: u64 = 6_364_136_223_846_793_005;

const INCREMENT: u64 = 1_442_695_040_888_963_407;

/// A source of drawn numbers. The numbers still to be drawn depend on its state alone.
#[derive(Drop)]
pub struct Draws {
    pub state: u64,
}

impl Draws {
    /// Draws a number below a bound.
    pub fn draw(&mut self, bound: usize) -> usize
        requires { 0 < bound }
        ensures number { result ≡ number_drawn self.old.state bound }
        ensures below { result < bound }
        ensures state { self.new.state ≡ next_state self.old.state }
    {
        self.state = self.state.wrapping_mul(MULTIPLIER).wrapping_add(INCREMENT);
        (self.state >> 33) as usize % bound
    }

    /// Draws two numbers below a bound, and gives the lesser.
    pub fn draw_lesser(&mut self, bound: usize) -> usize
        requires { 0 < bound }
        ensures number { result ≡ lesser_drawn self.old.state bound }
        ensures below { result < bound }
        ensures state { self.new.state ≡ state_after 2 self.old.state }
    {
        let first = self.draw(bound);
        let second = self.draw(bound);
        first.min(second)
    }
}
