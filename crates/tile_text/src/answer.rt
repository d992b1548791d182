// The answer to a tile text: decoding within the limits, and the seven lines.
ghost use Rattle.tile_text.specs.Reply.{reply_of, Replies, RepliesTo};
ghost use Rattle.tile_text.specs.Promises.{AnsweredOr};

use crate::lines::{Answer, put_lines};
use crate::parser::{Line, Parser};
use crate::refusal::Refusal;

// The most bytes of a picture that is decoded.
pub const PICTURE_LIMIT: usize = 65536;

// Space for every answer: two digits for each painted byte, and 256 bytes for the rest. The program lends arrays of both lengths, as it has
// no heap.
pub const ANSWER_SPACE: usize = 2 * PICTURE_LIMIT + 256;

// That it is no tile text comes before the decoder's refusals of a picture, and these before too large.
fn decode(p: &Parser, target: &mut [u8; PICTURE_LIMIT]) -> Result<Answer, Refusal>
    ensures { AnsweredOr (reply_of p.now) target.old target.new result }
{
    let Line::Whole = p.line else {
        return Err(Refusal::NotATileText);
    };
    let size = picture::picture_size(p.width, p.height, p.bpp)?;
    let stream = match p.stream.read() {
        Some(stream) if size <= PICTURE_LIMIT => stream,
        _ => return Err(Refusal::TooLarge),
    };
    let report = rle::decompress(stream, target, p.width, p.height, p.bpp);
    Ok(Answer {
        outcome: report.outcome.map_err(Refusal::Decoder),
        orders: report.orders,
        pixels: report.pixels,
        painted: report.pixels * picture::bytes_per_pixel(p.bpp),
    })
}

// Writes the answer from the first byte of `out` on, and says how many bytes it has. The painted bytes are in `target`.
pub fn reply(p: &Parser, target: &mut [u8; PICTURE_LIMIT], out: &mut [u8; ANSWER_SPACE]) -> usize
    ensures { Replies (reply_of p.now) target.old target.new out.old out.new result }
{
    let answer = decode(p, target).unwrap_or_else(Answer::from);
    put_lines(answer, target, out)
}

// The same for a text that stands in one slice.
pub fn reply_to(
    text: &[u8],
    target: &mut [u8; PICTURE_LIMIT],
    out: &mut [u8; ANSWER_SPACE],
) -> usize
    ensures { RepliesTo text.now target.old target.new out.old out.new result }
{
    let mut p = Parser::new();
    p.feed(text);
    reply(&p, target, out)
}
