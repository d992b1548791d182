// Printing into a lent buffer. Each method of `Output` prints its text from the place on, and moves the place past it. It stores only
// inside the buffer and counts on past its end, so a run into a short buffer gives the text's length. A place can't wrap: the next
// after the largest is the largest.
//
// What is printed is defined in specs/Text.antt and specs/Digits.antt, what each method promises in specs/Writes.antt.
#![tactic(auto)]

ghost use Rattle.std.specs.Prelude.{◌≡◌, [], ◌∷◌, ◌<◌};
ghost use Rattle.print.specs.Text.{line};
ghost use Rattle.print.specs.Digits.{hex_digit, decimal, hex_pairs};
ghost use Rattle.print.specs.Writes.{Prints};

// A lent buffer, and the place of the next byte.
#[derive(Drop)]
pub struct Output<'a> {
    pub buffer: &'a mut [u8],
    pub place: usize,
}

#[tactic(auto, unfolding(crate::specs::Digits::hex_digit))]
fn hex_digit(d: u8) -> u8
    requires { d < 16 }
    ensures { result ≡ hex_digit d }
{
    char::from_digit(u32::from(d), 16).unwrap() as u8
}

impl<'a> Output<'a> {
    // From the buffer's first byte on.
    pub fn new(buffer: &'a mut [u8]) -> Output<'a>
        ensures same_buffer { result.buffer.ghost_name ≡ buffer.entry.ghost_name }
        ensures held { result.buffer.now ≡ buffer.old }
        ensures place { result.place ≡ 0 }
    {
        Output { buffer, place: 0 }
    }

    pub fn byte(&mut self, b: u8)
        ensures { Prints self.old (b ∷ []) self.new }
    {
        if self.place < self.buffer.len() {
            self.buffer[self.place] = b;
        }
        self.place = self.place.saturating_add(1);
    }

    pub fn bytes(&mut self, text: &[u8])
        ensures { Prints self.old text.now self.new }
    {
        for &b in text {
            self.byte(b);
        }
    }

    // The bytes in hexadecimal.
    pub fn pairs(&mut self, bytes: &[u8])
        ensures { Prints self.old (hex_pairs bytes.now) self.new }
    {
        for &b in bytes {
            self.byte(hex_digit(b / 16));
            self.byte(hex_digit(b % 16));
        }
    }

    // The digits of n / 10, and then the last one. By `write!(self, "{n}")` that they are printed does not prove: std says what is written
    // where `write!` gives Ok, and nothing says that it does, though `write_str` always would.
    pub fn decimal(&mut self, n: usize)
        ensures { Prints self.old (decimal n) self.new }
    {
        let more = 10 <= n;
        if more {
            self.decimal(n / 10);
        }
        self.byte(b'0' + (n % 10) as u8);
    }

    // A line with a key and a number.
    pub fn number(&mut self, key: &[u8], n: usize)
        ensures { Prints self.old (line key.now (decimal n)) self.new }
    {
        self.bytes(key);
        self.decimal(n);
        self.byte(b'\n');
    }
}
