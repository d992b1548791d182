// The records of a stream's orders, for C. include/nulambiro.h says what a caller needs to know.
ghost use Rattle.std.specs.Prelude.{◌≡◌, get_or};
ghost use Rattle.definition.specs.Records.{records, nth};
ghost use Rattle.rle.specs.Records.{record_in};
ghost use Rattle.nulambiro.specs.RecordNumbers.{record_numbers, answer_numbers, walk_of, walk_numbers, MovesOn};

use rle::{Found, OrderRecord, Walk};

pub(crate) fn record_numbers(o: OrderRecord) -> [u64; 8]
    ensures { result ≡ record_numbers (record_in o) }
{
    [1, o.header as u64, o.place as u64, 0, 0, 0, 0, 0]
}

#[unsafe(no_mangle)]
pub extern "C" fn nulambiro_order_record(
    src: &[u8],
    width: usize,
    height: usize,
    bpp: usize,
    n: usize,
    report: &mut [u64; 8],
)
    ensures { report.new ≡ answer_numbers (nth (records src.now bpp width height) n) }
{
    *report = orders::order_record(src, width, height, bpp, n).map_or([0; 8], record_numbers);
}

// A walk from its numbers: zeros are the start of a stream.
pub(crate) fn walk_of(walk: &[u64; 8]) -> Walk
    ensures { result ≡ walk_of (get_or walk.now 0 0) (get_or walk.now 1 0) (get_or walk.now 2 0) (get_or walk.now 3 0) }
{
    let [bytes, pixels, insert, later_row, ..] = *walk;
    Walk {
        pos: bytes as usize,
        pixels: pixels as usize,
        insert: insert != 0,
        first_row: later_row == 0,
    }
}

pub(crate) fn walk_numbers(w: Walk) -> [u64; 8]
    ensures { result ≡ walk_numbers w }
{
    [
        w.pos as u64,
        w.pixels as u64,
        u64::from(w.insert),
        u64::from(!w.first_row),
        0,
        0,
        0,
        0,
    ]
}

#[unsafe(no_mangle)]
pub extern "C" fn nulambiro_next_order(
    src: &[u8],
    width: usize,
    height: usize,
    bpp: usize,
    walk: &mut [u64; 8],
    report: &mut [u64; 8],
)
    ensures { MovesOn src.now bpp width height walk.old walk.new report.new }
{
    let from = walk_of(walk);
    match rle::nth_order(src, width, height, bpp, from, 0) {
        Some(Found { order, walk: next }) => {
            *walk = walk_numbers(next);
            *report = record_numbers(order);
        }
        None => *report = [0; 8],
    }
}
