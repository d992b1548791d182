// Orders that paint runs, and single pixels. Each plans the order, paints the pixels that the plan says, and ends as the plan says.
//
// Where a plan says none, the order is refused. Orders of colors that the stream or the depth has, and special fg/bg images, end there,
// before they paint, so that the compiler carries no refusal past the painting; the others leave it to their painter, which paints none then. A
// function that one kind has for itself does not look at the order's kind, so that it is a constant there.
ghost use Rattle.std.specs.Prelude.{◌≡◌, ◌⊎◌};
ghost use Rattle.definition.specs.Orders as orders;
ghost use Rattle.rle.specs.Kinds.{kind_in};
ghost use Rattle.rle.specs.declared.kind.Kind.TheVariants.{FgRun, SetFgRun, White, Black, NoOrder};
ghost use Rattle.rle.specs.Carrying.{HasPicture, CarriesOut};

use crate::kind::Kind;
use crate::order::Order;
use crate::paint::Ink;
use crate::pixel::read_pixel;
use crate::plan::Plan;
use crate::state::Stepped;

impl<'a> Order<'a> {
    pub(crate) fn bg_run(self, dst: &mut [u8]) -> Stepped
        requires { HasPicture self dst.old }
        ensures { CarriesOut self.entry orders.Kind.BgRun dst.old dst.new result }
    {
        let s = self.state;
        let p = self.frame.room(s.walk.pixels).run(self.run_length);
        let span = s.span(self.frame, p.pixels);
        span.paint_bg_run(dst, s.insert_ink(), s.bg_ink(self.frame));
        s.finished(p, Kind::BgRun)
    }

    // A foreground run, with or without a foreground of its own. Each kind has a copy of its own, so that neither tests for the other.
    #[inline(always)]
    pub(crate) fn fg_run(self, dst: &mut [u8]) -> Stepped
        requires place { HasPicture self dst.old }
        requires run { (self.kind ≡ FgRun) ⊎ (self.kind ≡ SetFgRun) }
        ensures { CarriesOut self.entry (kind_in self.entry.kind) dst.old dst.new result }
    {
        let s = self.state;
        let left = self.src.len() - s.walk.pos;
        let p = self
            .frame
            .room(s.walk.pixels)
            .fg_run(self.kind, self.run_length, left);
        let t = self.with_foreground();
        s.span(self.frame, p.pixels).paint_fg_run(dst, t.fg_ink());
        t.finished(p, self.kind)
    }

    pub(crate) fn color_run(self, dst: &mut [u8]) -> Stepped
        requires { HasPicture self dst.old }
        ensures { CarriesOut self.entry orders.Kind.ColorRun dst.old dst.new result }
    {
        let s = self.state;
        let left = self.src.len() - s.walk.pos;
        let p = self
            .frame
            .room(s.walk.pixels)
            .pixel_run(self.run_length, left);
        if p.pixels == 0 {
            return s.finished(p, Kind::ColorRun);
        }
        let color = read_pixel(self.src, self.frame.depth.bytes, s.walk.pos);
        s.span(self.frame, p.pixels)
            .paint_run(dst, Ink::Solid(color));
        s.finished(p, Kind::ColorRun)
    }

    pub(crate) fn dithered_run(self, dst: &mut [u8]) -> Stepped
        requires { HasPicture self dst.old }
        ensures { CarriesOut self.entry orders.Kind.DitheredRun dst.old dst.new result }
    {
        let s = self.state;
        let d = self.frame.depth.bytes;
        let left = self.src.len() - s.walk.pos;
        let p = self
            .frame
            .room(s.walk.pixels)
            .dithered_run(self.run_length, left);
        if p.pixels == 0 {
            return s.finished(p, Kind::DitheredRun);
        }
        let a = read_pixel(self.src, d, s.walk.pos);
        let b = read_pixel(self.src, d, s.walk.pos + d);
        s.span(self.frame, p.pixels).paint_dithered(dst, a, b);
        s.finished(p, Kind::DitheredRun)
    }

    // One white or black pixel, or no order. One function for them: each paints one pixel at most, and they differ in its color.
    pub(crate) fn one_pixel(self, dst: &mut [u8]) -> Stepped
        requires place { HasPicture self dst.old }
        requires pixel { (self.kind ≡ White) ⊎ ((self.kind ≡ Black) ⊎ (self.kind ≡ NoOrder)) }
        ensures { CarriesOut self.entry (kind_in self.entry.kind) dst.old dst.new result }
    {
        let s = self.state;
        let p = self.frame.room(s.walk.pixels).pixel(self.kind);
        if p.pixels == 0 {
            return s.finished(p, self.kind);
        }
        // The plan, in constants: with p a pixel of one byte takes 40 instructions, and so 37.
        let whole = Plan::complete(0, 1);
        s.span(self.frame, whole.pixels)
            .paint_pixel(dst, 0, Ink::Solid(self.frame.white_or_black(self.kind)));
        s.finished(whole, self.kind)
    }
}
