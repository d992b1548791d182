// Decoding by pauses: that any stopping points give what one call gives, as the contract of calls of `decompress_some`.
#![tactic(auto)]

ghost use Rattle.rle.specs.Report.{Decompresses};

use rle::{Progress, Report, ResumeError, State};

// Decodes as `decompress` does, with a pause after each `limit` orders. A limit of 0 is taken as 1, since each pause would come at once and
// decoding would never end. Width, height and depth come one by one, as to `decompress`.
pub fn decompress_by_pauses(
    src: &[u8],
    dst: &mut [u8],
    width: usize,
    height: usize,
    bpp: usize,
    limit: usize,
) -> Report
    ensures { Decompresses src.now bpp width height dst.old dst.new result }
{
    let some = limit.max(1);
    let mut state = State::start(bpp);
    loop {
        let r = rle::decompress_some(src, dst, width, height, bpp, state, some);
        let outcome = match r.outcome {
            Ok(Progress::Paused(next)) => {
                state = next;
                continue;
            }
            Ok(Progress::Ended(format)) => Ok(format),
            Err(ResumeError::Refused(refusal)) => Err(refusal),
            Err(ResumeError::BadState) => unreachable!(),
        };
        return Report {
            outcome,
            pixels: r.pixels,
            orders: r.orders,
        };
    }
}
