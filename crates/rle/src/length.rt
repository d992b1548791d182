// Run lengths.
ghost use Rattle.std.specs.Prelude.{◌≤◌};

// How many pixels an order's run length says: at least one, and at most what two bytes hold.
#[derive(Clone, Copy)]
pub(crate) struct Length {
    pub(crate) pixels: usize,
    pub(crate) ghost some: { 1 ≤ pixels },
    pub(crate) ghost few: { pixels ≤ 65536 },
}
