//! The clock layer: the records of a source that a clock covers.
ghost use Rattle.std.specs.Prelude.{◌≡◌, true};
ghost use Rattle.sources.specs.Clock.{clock_numbers};
ghost use Rattle.sources.specs.Meaning.{first};
ghost use Rattle.sources.specs.Sifted.{clocked, clocked_means, clocked_settled};

use crate::clock::Clock;
use crate::fault::Fault;
use crate::record::Record;
use crate::source::Source;
use kinds::interfaces::Id;

/// The records below whose ids the clock covers, up to the first whose actor it lacks.
#[derive(Drop)]
pub struct Clocked<S> {
    below: S,
    clock: Clock,
}

impl<S: Source> Clocked<S> {
    /// The records below that this clock covers.
    pub fn new(below: S, clock: Clock) -> Clocked<S>
        ensures { ⟦<Clocked<S> as Source>⟧.means result ≡ clocked S.I.Id.actor S.I.Id.counter (clock_numbers clock) (S.means below) }
    {
        Clocked { below, clock }
    }

    /// Passes the records that the clock does not cover, and shows what is first then.
    fn settle(&mut self) -> Result<Option<Record<S::I, S::N, S::V>>, Fault>
        ensures answer { result ≡ first (⟦<Clocked<S> as Source>⟧.means self.old).records (⟦<Clocked<S> as Source>⟧.means self.old).ending }
        ensures same { ⟦<Clocked<S> as Source>⟧.means self.new ≡ ⟦<Clocked<S> as Source>⟧.means self.old }
        ensures settled { clocked_settled S.I.Id.actor S.I.Id.counter S.means self.new ≡ true }
    {
        while let Some(record) = self.below.look()? {
            match self.clock.covers(record.id.actor(), record.id.counter()) {
                Ok(true) => return Ok(Some(record)),
                Ok(false) => self.below.step(),
                Err(refusal) => {
                    let height = self.below.height_above();
                    return Err(Fault {
                        refusal,
                        row: record.row,
                        height,
                    });
                }
            }
        }
        Ok(None)
    }
}

impl<S: Source> Source for Clocked<S> {
    type I = S::I;

    type N = S::N;

    type V = S::V;

    ghost means = { clocked_means S.I.Id.actor S.I.Id.counter S.Source.means };

    /// One more than below.
    fn height(&mut self) -> u32 {
        self.below.height_above()
    }

    fn look(&mut self) -> Result<Option<Record<S::I, S::N, S::V>>, Fault> {
        self.settle()
    }

    fn text(&mut self, place: u64) -> Option<u8> {
        self.settle().ok()??;
        self.below.text(place)
    }

    fn step(&mut self) {
        if let Ok(Some(_)) = self.settle() {
            self.below.step();
        }
    }
}
