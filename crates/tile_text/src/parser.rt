// A tile text, read one byte at a time in bounded memory.
ghost use Rattle.std.specs.Prelude.{◌≡◌, ◌<◌, IfSome, is_some, unwrap_or, replicate};
ghost use Rattle.tile_text.specs.Parse as parse;

use crate::stream::StreamBytes;

// The line being read; or the text is read whole, or it is no tile text. That is a case too, since it stays so whatever bytes come.
#[derive(Clone, Copy, Debug, PartialEq, Eq)]
pub enum Line {
    Width,
    Height,
    Bpp,
    Stream,
    Whole,
    Bad,
}

// A line by its number, for a caller that keeps one: from 0 on as they stand, 4 for the whole text, and every other number for none.
impl From<usize> for Line {
    ghost use Rattle.std.specs.Prelude.{◌≡◌};
    ghost use Rattle.tile_text.specs.Parse.{line_of};

    ghost from_gives = { λ n r. r ≡ line_of n };

    #[tactic(auto, unfolding(crate::specs::Parse::line_of))]
    fn from(n: usize) -> Line {
        match n {
            0 => Line::Width,
            1 => Line::Height,
            2 => Line::Bpp,
            3 => Line::Stream,
            4 => Line::Whole,
            _ => Line::Bad,
        }
    }
}

impl Line {
    // What the line begins with.
    #[tactic(auto, unfolding(crate::specs::Parse::key_of, print::specs::Text::ascii))]
    fn key(self) -> &'static [u8]
        ensures { result.now ≡ parse.key_of self }
    {
        match self {
            Line::Width => b"width=",
            Line::Height => b"height=",
            Line::Bpp => b"bpp=",
            Line::Stream => b"stream=",
            Line::Whole | Line::Bad => b"",
        }
    }
}

// The line, and the place in its key; after a number's key the value of the digits that are read. Then the numbers of the lines that
// are read, one by one as they come, and the stream's bytes.
#[derive(Clone, Copy, Debug, PartialEq, Eq)]
pub struct Parser {
    pub line: Line,
    pub place: usize,
    pub value: Option<usize>,
    pub width: usize,
    pub height: usize,
    pub bpp: usize,
    pub stream: StreamBytes,
}

// The value of a decimal digit.
#[tactic(auto, unfolding(crate::specs::Parse::digit_among))]
fn decimal_value(b: u8) -> Option<u8>
    ensures { result ≡ parse.decimal_value b }
{
    char::from(b).to_digit(10).map(|d| d as u8)
}

// The value of a lower-case hexadecimal digit. `to_digit(16)` takes upper case too.
#[tactic(auto, unfolding(crate::specs::Parse::digit_among, crate::specs::Parse::hex_value))]
fn hex_value(b: u8) -> Option<u8>
    ensures value { result ≡ parse.hex_value b }
    ensures small { IfSome result (λ d. d < 16) }
{
    match b {
        b'a'..=b'f' => Some(b - b'a' + 10),
        _ => decimal_value(b),
    }
}

// The value of a number's digits and one more, the digit d. No digit comes after 0, or after the eighth.
#[tactic(auto, unfolding(crate::specs::Parse::grown))]
fn grown(value: Option<usize>, d: u8) -> Option<usize>
    ensures { result ≡ parse.grown value d }
{
    match value {
        None => Some(usize::from(d)),
        Some(value) if 0 < value && value < 10_000_000 => Some(value * 10 + usize::from(d)),
        Some(_) => None,
    }
}

impl Parser {
    // Nothing is read yet.
    pub fn new() -> Parser
        ensures { result ≡ parse.start (replicate 8192 0) }
    {
        Parser {
            line: Line::Width,
            place: 0,
            value: None,
            width: 0,
            height: 0,
            bpp: 0,
            stream: StreamBytes::new(),
        }
    }

    // Another line starts.
    fn on_line(&mut self, line: Line)
        ensures { self.new ≡ parse.on_line line self.old }
    {
        self.line = line;
        self.place = 0;
        self.value = None;
    }

    // The line of a number ends; its value is the width, the height or the depth, by the line.
    #[tactic(auto, unfolding(crate::specs::Parse::end_number, crate::specs::Parse::number_on))]
    fn end_number(&mut self, value: usize)
        ensures { self.new ≡ parse.end_number self.old value }
    {
        match self.line {
            Line::Width => {
                self.width = value;
                self.on_line(Line::Height);
            }
            Line::Height => {
                self.height = value;
                self.on_line(Line::Bpp);
            }
            _ => {
                self.bpp = value;
                self.on_line(Line::Stream);
            }
        }
    }

    // After a number's key.
    #[tactic(auto, unfolding(crate::specs::Parse::number_step))]
    fn number_step(&mut self, b: u8) -> Option<()>
        ensures state { self.new ≡ unwrap_or (parse.number_step self.old b) self.old }
        ensures told { is_some result ≡ is_some (parse.number_step self.old b) }
    {
        if b == b'\n' {
            self.end_number(self.value?);
        } else {
            self.value = Some(grown(self.value, decimal_value(b)?)?);
        }
        Some(())
    }

    // After the stream's key.
    #[tactic(auto, unfolding(crate::specs::Parse::stream_step, crate::specs::Parse::digit_of))]
    fn stream_step(&mut self, b: u8) -> Option<()>
        ensures state { self.new ≡ unwrap_or (parse.stream_step self.old b) self.old }
        ensures told { is_some result ≡ is_some (parse.stream_step self.old b) }
    {
        match self.stream.high {
            None if b == b'\n' => self.on_line(Line::Whole),
            _ => self.stream.digit(hex_value(b)?),
        }
        Some(())
    }

    // Reads the byte b; none where no tile text has it there, and nothing changes. That is the one refusal here: it needs no error value.
    #[tactic(auto, unfolding(crate::specs::Parse::next, crate::specs::Parse::in_key, crate::specs::Parse::after_key))]
    fn next(&mut self, b: u8) -> Option<()>
        ensures state { self.new ≡ unwrap_or (parse.next self.old b) self.old }
        ensures told { is_some result ≡ is_some (parse.next self.old b) }
    {
        if let Some(&key) = self.line.key().get(self.place) {
            if b != key {
                return None;
            }
            // Kept from byte to byte: a chunk may end inside a key.
            self.place += 1;
            return Some(());
        }
        match self.line {
            Line::Width | Line::Height | Line::Bpp => self.number_step(b),
            Line::Stream => self.stream_step(b),
            Line::Whole | Line::Bad => None,
        }
    }

    // No byte leads away from `Bad`, so one departure anywhere refuses the whole text.
    #[tactic(auto, unfolding(crate::specs::Parse::step))]
    fn step(&mut self, b: u8)
        ensures { self.new ≡ parse.step self.old b }
    {
        if self.next(b).is_none() {
            self.on_line(Line::Bad);
        }
    }

    // Reads the bytes of `chunk`.
    pub fn feed(&mut self, chunk: &[u8])
        ensures { self.new ≡ parse.fed self.old chunk.now }
    {
        for &b in chunk {
            self.step(b);
        }
    }
}
