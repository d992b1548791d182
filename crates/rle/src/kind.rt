// The kinds of orders.
ghost use Rattle.std.specs.Prelude.{◌≡◌};
ghost use Rattle.base.specs.Picks.{pick};
ghost use Rattle.definition.specs.Plan.{leaves_insert};
ghost use Rattle.rle.specs.Kinds.{kind_in, sets_foreground};
ghost use Rattle.rle.specs.Heads.{own_place, mega_in};
ghost use Rattle.rle.specs.declared.kind.Kind.TheVariants.{SpecialFgBg1, SpecialFgBg2};

use crate::record::Place;

// In the order of the definition's table, in which NoOrder is a kind too: a header that is no order is read as one of one pixel, and
// its plan refuses it. As None of an Option it would be told apart where it is read already, and each contract that says which kind
// the definition has would go by cases.
#[derive(Clone, Copy, Debug, PartialEq, Eq)]
pub enum Kind {
    BgRun,
    FgRun,
    FgBgImage,
    ColorRun,
    ColorImage,
    SetFgRun,
    SetFgBgImage,
    DitheredRun,
    SpecialFgBg1,
    SpecialFgBg2,
    White,
    Black,
    NoOrder,
}

impl Kind {
    // Whether an order of this kind leaves an insert pending.
    pub(crate) fn leaves_insert(self) -> bool
        ensures { result ≡ leaves_insert (kind_in self) }
    {
        matches!(self, Kind::BgRun)
    }

    // Whether the first of its operands is a foreground.
    pub(crate) fn sets_foreground(self) -> bool
        ensures { result ≡ sets_foreground self }
    {
        matches!(self, Kind::SetFgRun | Kind::SetFgBgImage)
    }

    // The bytes of the foreground that an order of this kind reads, with pixels of d bytes.
    pub(crate) fn foreground_size(self, d: usize) -> usize
        ensures { result ≡ pick (sets_foreground self) d 0 }
    {
        if self.sets_foreground() { d } else { 0 }
    }

    // What it adds to a length of one byte.
    pub(crate) fn mega(self) -> usize
        ensures { result ≡ mega_in self }
    {
        match self {
            Kind::FgBgImage | Kind::SetFgBgImage => 1,
            Kind::BgRun | Kind::FgRun | Kind::ColorRun | Kind::ColorImage => 32,
            _ => 16,
        }
    }

    // The place of a run length that the header's byte decides: some kinds have just one.
    pub(crate) fn own_place(self) -> Place
        ensures { result ≡ own_place self }
    {
        match self {
            Kind::BgRun
            | Kind::FgRun
            | Kind::FgBgImage
            | Kind::ColorRun
            | Kind::ColorImage
            | Kind::SetFgRun
            | Kind::SetFgBgImage
            | Kind::DitheredRun => Place::InHeader,
            _ => Place::Nowhere,
        }
    }

    // The mask of a special fg/bg image.
    pub(crate) fn special_mask(self) -> u8
        ensures first { self ≡ SpecialFgBg1 → result ≡ 0x03 }
        ensures second { self ≡ SpecialFgBg2 → result ≡ 0x05 }
    {
        match self {
            Kind::SpecialFgBg1 => 0x03,
            _ => 0x05,
        }
    }
}
