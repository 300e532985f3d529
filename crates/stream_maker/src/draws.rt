//! The generator of numbers.

ghost use Rattle.std.specs.Prelude.{◌≡◌, ◌<◌};
ghost use Rattle.stream_maker.specs.Draws.{next, given};

/// A linear congruential generator (D. H. Lehmer, 1951): the state x goes to (x * 1103515245 +
/// 12345) mod 2147483648, and a draw below n gives (x / 65536) mod n of the new state.
#[derive(Clone, Copy, PartialEq, Eq, Debug)]
pub struct Generator {
    /// The state after the last draw; before the first one, the seed.
    pub state: u32,
}

impl Generator {
    /// The generator that begins with this seed.
    pub fn new(seed: u32) -> Generator
        ensures { result.state ≡ seed }
    {
        Generator { state: seed }
    }

    /// The next number below a limit.
    pub fn draw(&mut self, limit: u32) -> u32
        requires { 0 < limit }
        ensures drawn { result ≡ given limit (next self.old.state) }
        ensures below { result < limit }
        ensures advanced { self.new.state ≡ next self.old.state }
    {
        self.state = next_state(self.state);
        self.state / 65536 % limit
    }
}

fn next_state(state: u32) -> u32
    ensures { result ≡ next state }
{
    ((state as u64 * 1103515245 + 12345) % 2147483648) as u32
}
