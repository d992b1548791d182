// The report of a call.
ghost use Rattle.std.specs.Prelude.{◌≡◌};
ghost use Rattle.picture.specs.Outcomes.{format_of};
ghost use Rattle.rle.specs.Report.{summary_in};
ghost use Rattle.rle.specs.Reporting.{summary_after, not_decoded};

use picture::{Outcome, RleError, RlePixelFormat};

// The format or the refusal, the pixels painted, and the orders completed.
#[derive(Clone, Copy, Debug, PartialEq, Eq)]
pub struct Report {
    pub outcome: Outcome,
    pub pixels: usize,
    pub orders: usize,
}

impl Report {
    // The report of a stream that was followed to its end or its refusal.
    pub(crate) fn new(
        ending: Result<(), RleError>,
        pixels: usize,
        orders: usize,
        format: RlePixelFormat,
    ) -> Self
        ensures { summary_in result ≡ summary_after ending (format_of format) pixels orders }
    {
        Report {
            outcome: ending.map(|()| format),
            pixels,
            orders,
        }
    }
}

// The report of a picture that was refused before its stream.
impl From<RleError> for Report {
    ghost from_gives = { λ e r. r ≡ not_decoded e };

    fn from(e: RleError) -> Report {
        Report {
            outcome: Err(e),
            pixels: 0,
            orders: 0,
        }
    }
}
