//! What a line begins with.

ghost use Rattle.std.specs.Prelude.{◌≡◌};
ghost use Rattle.pfl_reader.specs.Scans.{head_after, head_of};

/// What a line is by its first word.
#[derive(Clone, Copy, Debug, PartialEq, Eq)]
pub enum Head {
    /// There is no word.
    Blank,
    /// The first word begins with `#`.
    Comment,
    /// There is a word.
    Word,
}

impl Head {
    /// What a line is after one more byte.
    pub(crate) fn after(self, byte: u8) -> Head
        ensures { result ≡ head_after self byte }
    {
        match self {
            Head::Blank => match byte {
                b' ' | b'\t' => Head::Blank,
                b'#' => Head::Comment,
                _ => Head::Word,
            },
            Head::Comment => Head::Comment,
            Head::Word => Head::Word,
        }
    }

    /// What a whole line is: only its first byte that is no blank is looked at.
    pub(crate) fn of(line: &[u8]) -> Head
        ensures { result ≡ head_of line.now }
    {
        for byte in line {
            match Head::Blank.after(*byte) {
                Head::Blank => {}
                Head::Comment => return Head::Comment,
                Head::Word => return Head::Word,
            }
        }
        Head::Blank
    }
}
