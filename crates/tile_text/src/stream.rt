// The bytes of a tile text's stream, read one digit at a time in bounded memory.
ghost use Rattle.std.specs.Prelude.{◌≡◌, ◌<◌, ◌≤◌, ◌↔◌, IfSome, IsSome, take, replicate};
ghost use Rattle.tile_text.specs.Parse as parse;

// The most bytes of a stream that are decoded.
pub const STREAM_LIMIT: usize = 8192;

// The stream's bytes so far: the first 8,192, and how many there are, counted up to 8,193, which says that they are too many. An array and
// a count, since there is no heap and a Parser is a value that its callers may copy; an ArrayVec is none. The first digit of a byte waits
// in `high` for the second.
#[derive(Clone, Copy, Debug, PartialEq, Eq)]
pub struct StreamBytes {
    pub bytes: [u8; STREAM_LIMIT],
    pub count: usize,
    pub high: Option<u8>,
}

impl StreamBytes {
    pub(crate) fn new() -> StreamBytes
        ensures { result ≡ parse.no_bytes (replicate 8192 0) }
    {
        let bytes = [0; STREAM_LIMIT];
        StreamBytes {
            bytes,
            count: 0,
            high: None,
        }
    }

    // The bytes, unless there are more than are decoded.
    pub(crate) fn read(&self) -> Option<&[u8]>
        ensures bytes { IfSome result (λ bytes. bytes.now ≡ take self.now.count self.now.bytes) }
        ensures limit { IsSome result ↔ (self.now.count ≤ 8192) }
    {
        self.bytes.get(..self.count)
    }

    // A byte is read. Past 8,192 the count only has to say so: it stays at 8,193, and a text of any length can't wrap it.
    #[tactic(auto, unfolding(crate::specs::Parse::pushed, crate::specs::Parse::put, crate::specs::Parse::count_more))]
    fn push(&mut self, byte: u8)
        ensures { self.new ≡ parse.pushed self.old byte }
    {
        self.high = None;
        if self.count < STREAM_LIMIT {
            self.bytes[self.count] = byte;
        }
        if self.count <= STREAM_LIMIT {
            self.count += 1;
        }
    }

    // A digit is read, the first of a byte or the second.
    #[tactic(auto, unfolding(crate::specs::Parse::digit_on))]
    pub(crate) fn digit(&mut self, d: u8)
        requires { d < 16 }
        ensures { self.new ≡ parse.digit_on self.old.high self.old d }
    {
        match self.high {
            None => self.high = Some(d),
            Some(high) => self.push(high % 16 * 16 + d),
        }
    }
}
