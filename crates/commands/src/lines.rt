//! One line of input, gathered within a limit.
ghost use Rattle.std.specs.Prelude.{◌≤◌, vec_len};
ghost use Rattle.office.specs.Exchanges.{line_limit};

use std::alloc::Global;

/// How many bytes a line has at most, its line end aside.
const LINE_LIMIT: usize = 22_000_000;

/// What became of the bytes of a line.
#[derive(Clone, Copy)]
pub(crate) enum Gathered {
    /// All of them are kept.
    Whole,
    /// They are more than the limit.
    TooLong,
    /// There was no memory for them. So far they are within the limit.
    NoMemory,
}

/// The line that is being gathered, of which no more is kept than the limit allows.
#[derive(Drop)]
pub(crate) struct Line {
    bytes: Vec<u8>,
    /// How many bytes came, as long as they are within the limit.
    count: usize,
    gathered: Gathered,
    ghost bounded: { count ≤ line_limit },
    ghost kept: { vec_len bytes ≤ count },
}

impl Line {
    ghost use Rattle.std.specs.Prelude.{◌≡◌, ◌≢◌, ◌≤◌, ℕ, List, [], ◌++◌, length, true, false};
    ghost use Rattle.commands.specs.declared.lines.Gathered.TheVariants.{Whole};
    ghost use Rattle.commands.specs.Gathering.{IsGathered, Gathers};

    /// An empty line.
    pub(crate) fn new(alloc: Global) -> Line
        ensures { Gathers result [] }
    {
        Line {
            bytes: Vec::new(alloc),
            count: 0,
            gathered: Gathered::Whole,
        }
    }

    /// Adds the next bytes. Where the line is too long or there is no memory for them, none is kept any longer, and the bytes
    /// are but counted.
    pub(crate) fn add(&mut self, piece: &[u8])
        ensures { (text : List ℕ) → Gathers self.old text → Gathers self.new (text ++ piece.now) }
    {
        match self.gathered {
            Gathered::TooLong => {}
            _ if piece.len() > LINE_LIMIT - self.count => self.let_go(Gathered::TooLong),
            Gathered::Whole => {
                self.count += piece.len();
                if self.bytes.extend_from_slice(piece).is_err() {
                    self.let_go(Gathered::NoMemory);
                }
            }
            Gathered::NoMemory => self.count += piece.len(),
        }
    }

    fn let_go(&mut self, gathered: Gathered)
        ensures { (self.new.gathered ≡ gathered) × (self.new.count ≡ self.old.count) }
    {
        self.bytes.clear();
        self.gathered = gathered;
    }

    /// The bytes that are kept.
    pub(crate) fn bytes(&self) -> &[u8]
        ensures value { result.now ≡ self.now.bytes.items }
        ensures within { length result.now ≤ line_limit }
    {
        self.bytes.as_slice()
    }

    pub(crate) fn gathered(&self) -> Gathered
        ensures { result ≡ self.now.gathered }
    {
        self.gathered
    }

    /// Whether nothing came of it.
    pub(crate) fn is_empty(&self) -> bool
        ensures empty { result ≡ true → (text : List ℕ) → Gathers self.now text → text ≡ [] }
        ensures some { result ≡ false → (text : List ℕ) → Gathers self.now text → text ≢ [] }
    {
        match self.gathered {
            Gathered::TooLong => false,
            _ => self.count == 0,
        }
    }

    /// Begins the next line.
    pub(crate) fn clear(&mut self)
        ensures { Gathers self.new [] }
    {
        self.bytes.clear();
        self.count = 0;
        self.gathered = Gathered::Whole;
    }
}
