// An answer, and its seven lines, printed into a lent array.
ghost use Rattle.std.specs.Prelude.{◌≡◌, ◌≤◌, length};
ghost use Rattle.print.specs.Writes.{Writes, Prints};
ghost use Rattle.tile_text.specs.Answer.{format_line, painted_line};
ghost use Rattle.tile_text.specs.Promises.{refused, format_in, refusal_in, refusal_lines, answer_lines};

use crate::answer::{ANSWER_SPACE, PICTURE_LIMIT};
use crate::refusal::Refusal;
use picture::{Numbers, RlePixelFormat};
use print::Output;

pub(crate) type Outcome = Result<RlePixelFormat, Refusal>;

// What the lines say; of the painted bytes, how many.
#[derive(Clone, Copy, Debug)]
pub(crate) struct Answer {
    pub outcome: Outcome,
    pub orders: usize,
    pub pixels: usize,
    pub painted: usize,
}

// Nothing is decoded.
impl From<Refusal> for Answer {
    ghost from_gives = { λ e a. a ≡ refused e };

    fn from(e: Refusal) -> Answer {
        Answer {
            outcome: Err(e),
            orders: 0,
            pixels: 0,
            painted: 0,
        }
    }
}

fn put_format(output: &mut Output, outcome: Outcome)
    ensures { Prints output.old (format_line (format_in outcome)) output.new }
{
    match outcome {
        Ok(format) => output.number(b"format=Rgb", format.bits_per_pixel()),
        Err(_) => output.bytes(b"format=none\n"),
    }
}

fn put_refusal(output: &mut Output, outcome: Outcome)
    ensures { Prints output.old (refusal_lines outcome) output.new }
{
    // All 0 where nothing is refused.
    let numbers = outcome.err().map_or_else(Numbers::default, Numbers::from);
    output.number(b"refusal=", numbers.refusal);
    output.number(b"first=", numbers.first);
    output.number(b"second=", numbers.second);
}

fn put_painted(output: &mut Output, bytes: &[u8])
    ensures { Prints output.old (painted_line bytes.now) output.new }
{
    output.bytes(b"painted=");
    output.pairs(bytes);
    output.byte(b'\n');
}

// The painted bytes are the target's first.
pub(crate) fn put_lines(
    answer: Answer,
    target: &[u8; PICTURE_LIMIT],
    out: &mut [u8; ANSWER_SPACE],
) -> usize
    requires { answer.painted ≤ 65536 }
    ensures writes { Writes out.old 0 (answer_lines answer target.now) out.new result }
    ensures out_len { length out.old ≡ 131328 }
{
    let mut output = Output::new(out);
    put_format(&mut output, answer.outcome);
    put_refusal(&mut output, answer.outcome);
    output.number(b"orders=", answer.orders);
    output.number(b"pixels=", answer.pixels);
    put_painted(&mut output, &target[..answer.painted]);
    output.place
}
