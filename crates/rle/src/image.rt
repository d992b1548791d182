// Orders that paint images. Each plans the order, paints the pixels that the plan says, and ends as the plan says. As in run.rt, a function
// that one kind has for itself does not look at the order's kind.
ghost use Rattle.std.specs.Prelude.{◌≡◌, ◌⊎◌};
ghost use Rattle.definition.specs.Orders as orders;
ghost use Rattle.rle.specs.Kinds.{kind_in};
ghost use Rattle.rle.specs.declared.kind.Kind.TheVariants.{FgBgImage, SetFgBgImage, SpecialFgBg1, SpecialFgBg2};
ghost use Rattle.rle.specs.Carrying.{HasPicture, CarriesOut};

use crate::kind::Kind;
use crate::order::Order;
use crate::state::Stepped;

impl<'a> Order<'a> {
    pub(crate) fn color_image(self, dst: &mut [u8]) -> Stepped
        requires { HasPicture self dst.old }
        ensures { CarriesOut self.entry orders.Kind.ColorImage dst.old dst.new result }
    {
        let s = self.state;
        let left = self.src.len() - s.walk.pos;
        let p = self
            .frame
            .room(s.walk.pixels)
            .color_image(self.run_length, left);
        if p.pixels == 0 {
            return s.finished(p, Kind::ColorImage);
        }
        s.span(self.frame, p.pixels)
            .paint_image(&self.src[s.walk.pos..], dst);
        s.finished(p, Kind::ColorImage)
    }

    pub(crate) fn special_fgbg(self, dst: &mut [u8]) -> Stepped
        requires place { HasPicture self dst.old }
        requires special { (self.kind ≡ SpecialFgBg1) ⊎ (self.kind ≡ SpecialFgBg2) }
        ensures { CarriesOut self.entry (kind_in self.entry.kind) dst.old dst.new result }
    {
        let s = self.state;
        let p = self.frame.room(s.walk.pixels).run(self.run_length);
        if p.pixels == 0 {
            return s.finished(p, self.kind);
        }
        let masks = [self.kind.special_mask()];
        s.span(self.frame, p.pixels)
            .paint_whole_masks(&masks, 0, dst, s.fg_ink());
        s.finished(p, self.kind)
    }

    // An fg/bg image, with or without a foreground of its own.
    pub(crate) fn fgbg_image(self, dst: &mut [u8]) -> Stepped
        requires place { HasPicture self dst.old }
        requires image { (self.kind ≡ FgBgImage) ⊎ (self.kind ≡ SetFgBgImage) }
        ensures { CarriesOut self.entry (kind_in self.entry.kind) dst.old dst.new result }
    {
        let s = self.state;
        let left = self.src.len() - s.walk.pos;
        let p = self
            .frame
            .room(s.walk.pixels)
            .fgbg_image(self.kind, self.run_length, left);
        let t = self.with_foreground();
        let from = s.walk.pos + self.kind.foreground_size(self.frame.depth.bytes);
        s.span(self.frame, p.pixels)
            .paint_masks(self.src, from, dst, t.fg_ink());
        t.finished(p, self.kind)
    }
}
