// Reads a tile text from standard input to its end, and writes the answer to standard output. Where it can't read or write, it says
// so on standard error.
#![tactic(auto)]

ghost use Rattle.std.specs.Prelude.{◌≡◌, IfOk, OnOk};
ghost use Rattle.std.specs.Io.KnownBytes.{IsAtEnd};
ghost use Rattle.tile.specs.Input.{ReadFrom, Replied};

use std::io::{self, Read, Write};
use thiserror::Error;
use tile_text::{ANSWER_SPACE, PICTURE_LIMIT, Parser};

// What stops the program before its end. It has no place for the `io::Error`: the text that it prints does not tell that.
#[derive(Clone, Copy, Debug, Error)]
enum Failure {
    #[error("cannot read standard input")]
    Read,
    #[error("cannot write standard output")]
    Write,
}

// Reads once, feeds what came, and gives how many bytes that were.
fn read_chunk<R: Read>(input: &mut R, parser: &mut Parser) -> io::Result<usize>
    ensures read { ReadFrom (R.remaining input.old) (R.remaining input.new) parser.old parser.new }
    ensures end { IfOk result (λ n. n ≡ 0 → IsAtEnd (R.remaining input.new)) }
{
    let mut bytes = [0u8; 4096];
    let n = input.read(&mut bytes)?;
    parser.feed(&bytes[..n]);
    Ok(n)
}

// A proved loop has to end, and nothing says that the input does. So the loop has a number of turns that no run uses up.
fn read_all<R: Read>(input: &mut R, parser: &mut Parser) -> Result<(), Failure>
    ensures read { ReadFrom (R.remaining input.old) (R.remaining input.new) parser.old parser.new }
    ensures end { OnOk result (IsAtEnd (R.remaining input.new)) }
{
    for _ in 0..u64::MAX {
        let n = read_chunk(input, parser).map_err(|_| Failure::Read)?;
        if n == 0 {
            return Ok(());
        }
    }
    Err(Failure::Read)
}

// Reads a tile text to its end, and writes the answer to it.
fn answer<R: Read, W: Write>(input: &mut R, output: &mut W) -> Result<(), Failure>
    ensures { OnOk result (Replied (R.remaining input.old) (R.remaining input.new)
        (W.contents output.old) (W.contents output.new)) }
{
    // Fixed memory is this project's rule: arrays and no heap, whatever the text's length.
    let mut target = [0u8; PICTURE_LIMIT];
    let mut out = [0u8; ANSWER_SPACE];
    let mut parser = Parser::new();
    read_all(input, &mut parser)?;
    let n = tile_text::reply(&parser, &mut target, &mut out);
    output.write_all(&out[..n]).map_err(|_| Failure::Write)
}

fn main(rt: HostRuntime) {
    if let Err(failure) = answer(&mut rt.stdin(), &mut rt.stdout()) {
        let _ = eprintln!(rt; "tile: {failure}");
    }
}
