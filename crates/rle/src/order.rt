// The orders of a stream, by their kinds.
ghost use Rattle.std.specs.Prelude.{◌≤◌, length};
ghost use Rattle.rle.specs.Kinds.{fixed_length};
ghost use Rattle.rle.specs.States.{frame_of, Invariant};

use crate::frame::Frame;
use crate::kind::Kind;
use crate::length::Length;
use crate::pixel::read_pixel;
use crate::state::{State, Stepped};

// An order that comes next: the stream, its picture's frame, the state in which it comes, with the place behind its run length, its
// kind, and that. The target is none of its fields, with which it could not be copied: methods that paint ask for the picture's place
// there (`HasPicture`).
#[derive(Clone, Copy)]
pub(crate) struct Order<'a> {
    pub(crate) src: &'a [u8],
    pub(crate) frame: Frame,
    pub(crate) state: State,
    pub(crate) kind: Kind,
    pub(crate) run_length: Length,
    pub(crate) ghost place: { state.walk.pos ≤ length src.now },
    pub(crate) ghost holds: { Invariant (frame_of frame) state },
    pub(crate) ghost fixed: { fixed_length kind run_length.pixels },
}

impl<'a> Order<'a> {
    ghost use Rattle.std.specs.Prelude.{◌≡◌, drop};
    ghost use Rattle.definition.specs.Plan as plan;
    ghost use Rattle.rle.specs.Kinds.{kind_in};
    ghost use Rattle.rle.specs.States.{with_fg};
    ghost use Rattle.rle.specs.Carrying.{HasPicture, CarriesOut};

    // The state with the foreground that an order of this kind reads, if it does and its bytes are there.
    #[inline(always)]
    pub(crate) fn with_foreground(self) -> State
        ensures { result ≡ with_fg self.entry.state (plan.foreground_by self.entry.frame.depth.bytes (kind_in self.entry.kind) self.entry.state.foreground (drop self.entry.state.walk.pos self.entry.src.now)) }
    {
        let d = self.frame.depth.bytes;
        let mut t = self.state;
        if self.kind.sets_foreground() && d <= self.src.len() - t.walk.pos {
            let p = read_pixel(self.src, d, t.walk.pos);
            t.foreground = p;
        }
        t
    }

    pub(crate) fn carry_out(self, dst: &mut [u8]) -> Stepped
        requires { HasPicture self dst.old }
        ensures { CarriesOut self.entry (kind_in self.entry.kind) dst.old dst.new result }
    {
        match self.kind {
            Kind::White | Kind::Black | Kind::NoOrder => self.one_pixel(dst),
            Kind::BgRun => self.bg_run(dst),
            Kind::FgRun => self.fg_run(dst),
            Kind::SetFgRun => self.fg_run(dst),
            Kind::FgBgImage | Kind::SetFgBgImage => self.fgbg_image(dst),
            Kind::ColorRun => self.color_run(dst),
            Kind::ColorImage => self.color_image(dst),
            Kind::DitheredRun => self.dithered_run(dst),
            Kind::SpecialFgBg1 | Kind::SpecialFgBg2 => self.special_fgbg(dst),
        }
    }
}
