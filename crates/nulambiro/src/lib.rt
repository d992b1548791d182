// The library for C: include/nulambiro.h declares these functions and says what they do. C's parameters are numbers, one by one.
//
// What C is told is arrays of numbers, which functions make, and no From: neither an array nor what it tells of is a type of this crate,
// and their layout belongs to no other.
#![tactic(auto)]

ghost use Rattle.std.specs.Prelude.{◌≡◌, [], ◌∷◌, length};
ghost use Rattle.definition.specs.Decode.{result_in, summary_of};
ghost use Rattle.rle.specs.Report.{summary_in};
ghost use Rattle.nulambiro.specs.Numbers.{numbers, target};

pub mod colors;
pub mod encoder;
pub mod pauses;
pub mod records;

use picture::Numbers;

// What C is told of a refusal in each array: its number (0: none) and its two values.
pub(crate) fn refusal_numbers(n: Numbers) -> [u64; 3]
    ensures { result ≡ n.refusal ∷ n.first ∷ n.second ∷ [] }
{
    [n.refusal as u64, n.first as u64, n.second as u64]
}

// What work on a picture came to, with the pixels painted and the orders completed, in numbers.
pub(crate) fn counted_numbers(n: Numbers, pixels: usize, orders: usize) -> [u64; 8]
    ensures { result ≡ n.format ∷ n.refusal ∷ n.first ∷ n.second ∷ pixels ∷ orders ∷ 0 ∷ 0 ∷ [] }
{
    let [refusal, first, second] = refusal_numbers(n);
    [
        n.format as u64,
        refusal,
        first,
        second,
        pixels as u64,
        orders as u64,
        0,
        0,
    ]
}

// A report in numbers.
#[tactic(auto, unfolding(crate::specs::Numbers::numbers))]
pub(crate) fn report_numbers(report: rle::Report) -> [u64; 8]
    ensures { result ≡ numbers (summary_in report) }
{
    counted_numbers(Numbers::from(report.outcome), report.pixels, report.orders)
}

#[unsafe(no_mangle)]
pub extern "C" fn nulambiro_decompress(
    src: &[u8],
    dst: &mut [u8],
    width: usize,
    height: usize,
    bpp: usize,
    report: &mut [u64; 8],
)
    ensures dst_after { dst.new ≡ target (result_in (length dst.old) src.now bpp width height) dst.old }
    ensures report_after { report.new ≡ numbers (summary_of (result_in (length dst.old) src.now bpp width height)) }
{
    *report = report_numbers(rle::decompress(src, dst, width, height, bpp));
}
