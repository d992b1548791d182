// Decoding that stops after some orders, and goes on from a state that the caller keeps.
ghost use Rattle.std.specs.Prelude.{◌≡◌};
ghost use Rattle.picture.specs.Outcomes.{format_of};
ghost use Rattle.rle.specs.Pauses.{DecompressesSome};
ghost use Rattle.rle.specs.Pausing.{some_report_in, some_report_of, not_resumed};

use crate::decode::some_orders;
use crate::frame::Frame;
use crate::state::Stepped;
use decoder_state::State;
use picture::{Numbers, RleError, RlePixelFormat};
use thiserror::Error;

// How far some orders came: to the stream's end, with the picture's format, or to a pause, with the state to go on from.
#[derive(Clone, Copy, Debug, PartialEq, Eq)]
pub enum Progress {
    Ended(RlePixelFormat),
    Paused(State),
}

#[derive(Clone, Copy, Debug, PartialEq, Eq, Error)]
pub enum ResumeError {
    // As in decoding.
    #[error(transparent)]
    Refused(RleError),
    #[error("decoding cannot go on from this state: it is none of this stream and this picture")]
    BadState,
}

// By hand: the derived one has no contract.
impl From<RleError> for ResumeError {
    ghost use Rattle.rle.specs.declared.pauses.ResumeError.TheVariants.{Refused};

    ghost from_gives = { λ e r. r ≡ Refused e };

    fn from(e: RleError) -> ResumeError {
        ResumeError::Refused(e)
    }
}

// A refusal that decoding has too keeps its number there.
impl From<ResumeError> for Numbers {
    ghost use Rattle.rle.specs.Pausing.{Numbered};

    ghost from_gives = { λ e r. Numbered e r };

    fn from(e: ResumeError) -> Numbers {
        match e {
            ResumeError::Refused(refusal) => Numbers::from(refusal),
            ResumeError::BadState => Numbers {
                refusal: 15,
                ..Numbers::default()
            },
        }
    }
}

// How some orders ended; the pixels and the orders are counted from the stream's start.
#[derive(Clone, Copy, Debug, PartialEq, Eq)]
pub struct SomeReport {
    pub outcome: Result<Progress, ResumeError>,
    pub pixels: usize,
    pub orders: usize,
}

impl SomeReport {
    // The report of some orders of a stream of `size` bytes.
    pub(crate) fn new(r: Stepped, size: usize, format: RlePixelFormat) -> Self
        ensures { result ≡ some_report_of r size format }
    {
        let state = State::from(r.state);
        let progress = if r.state.walk.pos < size {
            Progress::Paused(state)
        } else {
            Progress::Ended(format)
        };
        SomeReport {
            outcome: r.ending.map(|()| progress).map_err(ResumeError::from),
            pixels: state.pixels,
            orders: state.orders,
        }
    }
}

// The report of orders that were refused before the stream.
impl From<ResumeError> for SomeReport {
    ghost from_gives = { λ e r. r ≡ not_resumed e };

    fn from(e: ResumeError) -> SomeReport {
        SomeReport {
            outcome: Err(e),
            pixels: 0,
            orders: 0,
        }
    }
}

// Decodes at most `limit` orders of the stream `src` from `state` on into `dst`. The state is the start's, or that of a pause before, with the
// same stream, depth and sizes. From every state that passes the tests decoding goes on; `dst` before its pixels is read, and stays, as
// do the bytes after the painted pixels. Width, height and depth come one by one, as to `decompress`.
pub fn decompress_some(
    src: &[u8],
    dst: &mut [u8],
    width: usize,
    height: usize,
    bpp: usize,
    state: State,
    limit: usize,
) -> SomeReport
    ensures { DecompressesSome src.now bpp width height state limit dst.old dst.new result }
{
    resume(src, dst, width, height, bpp, state, limit).unwrap_or_else(SomeReport::from)
}

// The same, or its refusal before the stream.
pub(crate) fn resume(
    src: &[u8],
    dst: &mut [u8],
    width: usize,
    height: usize,
    bpp: usize,
    state: State,
    limit: usize,
) -> Result<SomeReport, ResumeError>
    ensures { DecompressesSome src.now bpp width height state limit dst.old dst.new (some_report_in result) }
{
    let (f, format) = Frame::with_space(dst.len(), width, height, bpp)?;
    if state.is_bad(src.len(), f.total, f.width, f.depth.bytes) {
        return Err(ResumeError::BadState);
    }
    // A sum that is too large is cut: no stream has so many orders.
    let r = some_orders(src, dst, f, state, state.orders.saturating_add(limit));
    Ok(SomeReport::new(r, src.len(), format))
}
