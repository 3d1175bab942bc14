//! Draws of a linear congruential generator.
ghost use Rattle.std.specs.Prelude.{◌≡◌, ◌+◌, ◌<◌};
ghost use Rattle.basin_gen.specs.Draws.{next, drawn, later};
ghost use Rattle.basin_gen.specs.Entries.{twelve_drawn};

/// The generator, by the number that it keeps.
#[derive(Drop)]
pub(crate) struct Draws {
    state: u64,
}

impl Draws {
    /// The generator of a basin's number.
    pub fn new(number: u32) -> Draws
        ensures { result.state ≡ number + 1 }
    {
        Draws {
            state: u64::from(number) + 1,
        }
    }

    /// Draws a number below `bound`.
    #[tactic(auto, using(crate::proofs::DrawLaws::next_wrapped, crate::proofs::DrawLaws::drawn_wrapped))]
    pub fn draw(&mut self, bound: u64) -> u64
        requires { 0 < bound }
        ensures value { result ≡ drawn self.old.state bound }
        ensures below { result < bound }
        ensures after { self.new.state ≡ next self.old.state }
    {
        self.state = self
            .state
            .wrapping_mul(6364136223846793005)
            .wrapping_add(1442695040888963407);
        (self.state >> 33) % bound
    }

    /// Draws a number below `bound` for each month of a year.
    #[tactic(auto, using(crate::proofs::DrawLaws::draws_in_place), unfolding(crate::specs::Entries::twelve_drawn))]
    pub fn draw_twelve(&mut self, bound: u64) -> [u64; 12]
        requires { 0 < bound }
        ensures value { result ≡ twelve_drawn self.old.state bound }
        ensures after { self.new.state ≡ later self.old.state 12 }
    {
        let mut numbers = [0; 12];
        for number in numbers.iter_mut() {
            *number = self.draw(bound);
        }
        numbers
    }
}
