//! Clocks made and asked.
ghost use Rattle.std.specs.Prelude.{◌≡◌, ◌<◌, ◌≤◌, length, MatchOption};
ghost use Rattle.sources.specs.Clock.{clock_numbers, covering};

use crate::clock::Clock;
use kinds::padded::padded;
use kinds::refusal::Refusal;

impl Clock {
    /// The clock of these numbers, one for each actor, or none where there are more than 64.
    pub fn new(numbers: &[u64]) -> Option<Clock>
        ensures { MatchOption result (64 < length numbers.now) (λ c. clock_numbers c ≡ numbers.now) }
    {
        Some(Clock {
            numbers: padded(numbers, 0)?,
            len: numbers.len(),
        })
    }

    /// The numbers, one for each actor.
    fn known(&self) -> &[u64]
        ensures { result.now ≡ clock_numbers self.now }
    {
        &self.numbers[..self.len]
    }

    /// Whether the actor's number is at least the counter; refused where the clock has no number for the actor.
    pub fn covers(&self, actor: usize, counter: u64) -> Result<bool, Refusal>
        ensures { result ≡ covering (clock_numbers self.now) actor counter }
    {
        let number = self.known().get(actor).ok_or(Refusal::ActorUnknown)?;
        Ok(counter <= *number)
    }
}
