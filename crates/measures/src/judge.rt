//! Judges whether bytes are well-formed text, over a slice or a byte at a time.
ghost use Rattle.std.specs.Prelude.{◌≡◌, ℕ, false, List, [], ◌∷◌, ◌++◌, Decides};
ghost use Rattle.measures.specs.Rfc3629.{Utf8Octets, Agrees};
ghost use Rattle.measures.specs.Judged.{Read, Taken, stepped};

/// What the grammar allows next.
#[derive(Clone, Copy)]
enum Expects {
    /// The first byte of a character, or the end of the text.
    Char,
    /// One tail byte, and then the character is whole.
    Tail,
    /// Two tail bytes.
    TwoTails,
    /// Three tail bytes.
    ThreeTails,
    /// The second byte after E0, where lower ones would be overlong.
    AfterE0,
    /// The second byte after ED, where higher ones would be surrogates.
    AfterED,
    /// The second byte after F0, where lower ones would be overlong.
    AfterF0,
    /// The second byte after F4, where higher ones would pass U+10FFFF.
    AfterF4,
}

impl Expects {
    /// What is allowed after the byte `b`, or `None` where `b` itself is not allowed.
    fn after(self, b: u8) -> Option<Expects>
        ensures { result ≡ stepped self b }
    {
        match (self, b) {
            (Expects::Char, 0x00..=0x7F) => Some(Expects::Char),
            (Expects::Char, 0xC2..=0xDF) => Some(Expects::Tail),
            (Expects::Char, 0xE0) => Some(Expects::AfterE0),
            (Expects::Char, 0xE1..=0xEC) => Some(Expects::TwoTails),
            (Expects::Char, 0xED) => Some(Expects::AfterED),
            (Expects::Char, 0xEE..=0xEF) => Some(Expects::TwoTails),
            (Expects::Char, 0xF0) => Some(Expects::AfterF0),
            (Expects::Char, 0xF1..=0xF3) => Some(Expects::ThreeTails),
            (Expects::Char, 0xF4) => Some(Expects::AfterF4),
            (Expects::Tail, 0x80..=0xBF) => Some(Expects::Char),
            (Expects::TwoTails, 0x80..=0xBF) => Some(Expects::Tail),
            (Expects::ThreeTails, 0x80..=0xBF) => Some(Expects::TwoTails),
            (Expects::AfterE0, 0xA0..=0xBF) => Some(Expects::Tail),
            (Expects::AfterED, 0x80..=0x9F) => Some(Expects::Tail),
            (Expects::AfterF0, 0x90..=0xBF) => Some(Expects::TwoTails),
            (Expects::AfterF4, 0x80..=0x8F) => Some(Expects::TwoTails),
            _ => None,
        }
    }
}

/// Reads a text a byte at a time, and holds what may come next.
#[derive(Clone, Copy)]
pub struct Judge {
    expects: Expects,
}

// `Read` relates a judge to what it was told, which is no field of it: a judge holds only what may come next.
impl Judge {
    /// A judge that has read nothing yet.
    pub fn new() -> Judge
        ensures { Read result [] }
    {
        Judge {
            expects: Expects::Char,
        }
    }

    // Yes or no, and no error: of a byte that cannot stand there nothing more is to say.
    /// Reads the byte `b`; where no well-formed text goes on so, answers false and leaves the judge as it was.
    pub fn take(&mut self, b: u8) -> bool
        ensures taken { (bytes : List ℕ) → Read self.old bytes → Taken result self.new (bytes ++ b ∷ []) }
        ensures kept { result ≡ false → self.new ≡ self.old }
    {
        match self.expects.after(b) {
            Some(next) => {
                self.expects = next;
                true
            }
            None => false,
        }
    }

    /// Whether what was read is a whole well-formed text.
    pub fn done(&self) -> bool
        ensures { (bytes : List ℕ) → Read self.now bytes → Decides result (Utf8Octets bytes) }
    {
        matches!(self.expects, Expects::Char)
    }
}

/// Whether `bytes` are well-formed text.
pub fn well_formed(bytes: &[u8]) -> bool
    ensures grammar { Decides result (Utf8Octets bytes.now) }
    ensures agrees { Agrees }
{
    let mut judge = Judge::new();
    for b in bytes {
        if !judge.take(*b) {
            return false;
        }
    }
    judge.done()
}
