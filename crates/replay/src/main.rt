// Decodes the streams of the file data/answers, counts their orders without a target, and compares each report with the one that is
// stored beside the stream.
//
// A record: width, height, bpp, then the stored report: format (0: none), refusal (0: none), its two values, pixels, orders, and the
// checksum of the target, which is preset to 0x55 and as long as the picture (64 bytes where there is no picture); then the stream's
// length and the stream. Each number is four bytes, low byte first.
#![tactic(auto)]

ghost use Rattle.std.specs.Prelude.{◌≡◌, ◌+◌, ◌^◌, ◌<◌, ◌≤◌, length, take, OnSome, IfSome, IfOk};
ghost use Rattle.std.specs.Io.{ReadsAtMost};
ghost use Rattle.std.specs.Io.KnownBytes.{Consumes, IsAtEnd};

use picture::Numbers;
use std::fs::File;
use std::io::{self, Read};

// The most bytes of the file that are read, and of a picture that is decoded. Fixed memory is this project's rule: arrays and no heap.
const FILE_LIMIT: usize = 262144;

const PICTURE_LIMIT: usize = 65536;

// Depth and sizes, as a record has them.
#[derive(Clone, Copy, Debug)]
struct Picture {
    width: usize,
    height: usize,
    bpp: usize,
}

// A report, with the target's checksum.
#[derive(Clone, Copy, Debug, PartialEq, Eq)]
struct Answer {
    outcome: Numbers,
    pixels: usize,
    orders: usize,
    sum: usize,
}

#[derive(Clone, Copy, Debug)]
struct Record<'a> {
    picture: Picture,
    stored: Answer,
    stream: &'a [u8],
}

// How many streams were decoded, and how many were answered otherwise than it is stored.
#[derive(Clone, Copy, Debug, Default)]
struct Tally {
    streams: usize,
    differ: usize,
}

// The records that are left. Where one is cut off, what it would have next is `None`.
#[derive(Clone, Copy, Debug)]
struct Records<'a> {
    rest: &'a [u8],
}

impl<'a> Records<'a> {
    // So many bytes.
    fn bytes(&mut self, count: usize) -> Option<&'a [u8]>
        ensures taken { IfSome result (λ bytes. length bytes.now ≡ count) }
        ensures left { OnSome result (length self.new.rest.now + count ≡ length self.old.rest.now) }
    {
        let (bytes, rest) = self.rest.split_at_checked(count)?;
        self.rest = rest;
        Some(bytes)
    }

    fn number(&mut self) -> Option<usize>
        ensures small { IfSome result (λ n. n < 2 ^ 32) }
        ensures left { OnSome result (length self.new.rest.now + 4 ≡ length self.old.rest.now) }
    {
        let (bytes, rest) = self.rest.split_first_chunk::<4>()?;
        self.rest = rest;
        Some(u32::from_le_bytes(*bytes) as usize)
    }

    fn picture(&mut self) -> Option<Picture>
        ensures { OnSome result (length self.new.rest.now + 12 ≡ length self.old.rest.now) }
    {
        Some(Picture {
            width: self.number()?,
            height: self.number()?,
            bpp: self.number()?,
        })
    }

    fn answer(&mut self) -> Option<Answer>
        ensures { OnSome result (length self.new.rest.now + 28 ≡ length self.old.rest.now) }
    {
        Some(Answer {
            outcome: Numbers {
                format: self.number()?,
                refusal: self.number()?,
                first: self.number()?,
                second: self.number()?,
            },
            pixels: self.number()?,
            orders: self.number()?,
            sum: self.number()?,
        })
    }

    fn record(&mut self) -> Option<Record<'a>>
        ensures { OnSome result (length self.new.rest.now + 44 ≤ length self.old.rest.now) }
    {
        let picture = self.picture()?;
        let stored = self.answer()?;
        let length = self.number()?;
        let stream = self.bytes(length)?;
        Some(Record {
            picture,
            stored,
            stream,
        })
    }
}

// A polynomial of the bytes, modulo the largest prime below 2^32.
fn checksum(target: &[u8]) -> usize {
    let sum = target.iter().fold(0u32, |sum, byte| {
        ((u64::from(sum) * 16777619 + u64::from(*byte) + 1) % 4294967291) as u32
    });
    sum as usize
}

fn target_len(p: Picture) -> usize {
    picture::picture_size(p.width, p.height, p.bpp).unwrap_or(64)
}

fn with_sum(r: rle::Report, sum: usize) -> Answer {
    Answer {
        outcome: Numbers::from(r.outcome),
        pixels: r.pixels,
        orders: r.orders,
        sum,
    }
}

// The report of decoding into a target that is preset first.
fn decoded(stream: &[u8], target: &mut [u8], p: Picture) -> Answer {
    target.fill(0x55);
    let report = rle::decompress(stream, target, p.width, p.height, p.bpp);
    with_sum(report, checksum(target))
}

// The report of counting the stream's orders, which has no target of its own.
fn counted(stream: &[u8], p: Picture, sum: usize) -> Answer {
    with_sum(rle::count_orders(stream, p.width, p.height, p.bpp), sum)
}

// Whether both answers are the one that is stored. A picture of more bytes than the target counts as answered otherwise.
fn agrees(record: Record, target: &mut [u8]) -> bool {
    let Record {
        picture,
        stored,
        stream,
    } = record;
    match target.get_mut(..target_len(picture)) {
        Some(target) => {
            decoded(stream, target, picture) == stored
                && counted(stream, picture, stored.sum) == stored
        }
        None => false,
    }
}

// All records; one that is cut off counts as differing. As an iterator the records would also have to say that none comes after one that
// is cut off.
fn replay(data: &[u8], target: &mut [u8]) -> Tally {
    let mut records = Records { rest: data };
    let mut tally = Tally::default();
    while !records.rest.is_empty() {
        tally.streams += 1;
        let Some(record) = records.record() else {
            tally.differ += 1;
            return tally;
        };
        if !agrees(record, target) {
            tally.differ += 1;
        }
    }
    tally
}

// Reads until `buf` is full or the input ends, and gives how many bytes it put at the start of `buf`. `read_to_end` would read a file of
// any length, into a Vec.
fn read_full<R: Read>(input: &mut R, buf: &mut [u8]) -> io::Result<usize>
    ensures in_bounds { ReadsAtMost result buf.new }
    ensures bytes { IfOk result (λ n. Consumes (R.remaining input.old) (R.remaining input.new) (take n buf.new)) }
    ensures to_the_end { IfOk result (λ n. n < length buf.new → IsAtEnd (R.remaining input.new)) }
{
    let mut done = 0;
    while done < buf.len() {
        let n = input.read(&mut buf[done..])?;
        if n == 0 {
            return Ok(done);
        }
        done += n;
    }
    Ok(done)
}

fn main(rt: HostRuntime) -> io::Result<()> {
    let path = "answers";
    let mut file = match File::open(&rt, path) {
        Ok(file) => file,
        Err(error) => return eprintln!(rt; "{path}: {error}"),
    };
    let mut data = [0u8; FILE_LIMIT];
    let n = read_full(&mut file, &mut data)?;
    let mut target = [0u8; PICTURE_LIMIT];
    let tally = replay(&data[..n], &mut target);
    println!(rt; "{} streams, {} differ", tally.streams, tally.differ)
}
