//! The window: a part of what a source shows.
ghost use Rattle.std.specs.Prelude.{◌≡◌};
ghost use Rattle.sources.specs.Window.{window, window_means, Settled};

use crate::fault::Fault;
use crate::record::Record;
use crate::source::Source;

/// The source below: the records of it still to pass, then the records still to show.
#[derive(Drop)]
pub struct Window<S> {
    below: S,
    skip: u64,
    left: u64,
}

impl<S: Source> Window<S> {
    /// The records below from `from` up to, but without, `to`.
    pub fn new(below: S, from: u64, to: u64) -> Window<S>
        ensures { ⟦<Window<S> as Source>⟧.means result ≡ window from to (S.means below) }
    {
        let skip = from.min(to);
        Window {
            below,
            skip,
            left: to - skip,
        }
    }

    /// Passes the records before the window.
    fn settle(&mut self)
        ensures same { ⟦<Window<S> as Source>⟧.means self.new ≡ ⟦<Window<S> as Source>⟧.means self.old }
        ensures settled { Settled S.means self.new }
    {
        // A `while`: what is not passed yet stays in the window's own count.
        while self.skip > 0 && self.below.more() {
            self.below.step();
            self.skip -= 1;
        }
    }
}

impl<S: Source> Source for Window<S> {
    type I = S::I;

    type N = S::N;

    type V = S::V;

    ghost means = { window_means S.Source.means };

    /// One more than below.
    fn height(&mut self) -> u32 {
        self.below.height_above()
    }

    fn look(&mut self) -> Result<Option<Record<S::I, S::N, S::V>>, Fault> {
        self.settle();
        if self.skip == 0 && self.left == 0 {
            Ok(None)
        } else {
            self.below.look()
        }
    }

    fn text(&mut self, place: u64) -> Option<u8> {
        self.settle();
        if self.skip == 0 && self.left == 0 {
            None
        } else {
            self.below.text(place)
        }
    }

    fn step(&mut self) {
        self.settle();
        if self.left > 0 && self.below.more() {
            self.below.step();
            self.left -= 1;
        }
    }
}
