// Pixels by masks, the lowest bit first: where the bit is 1 the color (the first d bytes of it), where it is 0 zeros; in the first row as
// they are, later exclusive-or the bytes so many places back. Callers have the depth and the places as numbers, and every number is
// allowed; where the row above is there, `Masked` holds them.
#![tactic(auto)]

ghost use Rattle.std.specs.Prelude.{◌≡◌, true, ◌+◌, ◌*◌, ◌≤◌, leb, length};
ghost use Rattle.byte_runs.specs.Runs.{Depth, Eight, run_where, both, there, pixels_there, row_there, mask_by, masked_by, row_bytes};

use byte_runs::pixels_fit;

pub(crate) mod part;
pub(crate) mod whole;

// Pixels of D bytes in a target: from `at` on, with the row above so many bytes back, none in the first row, and the color that a mask
// gives them. The target is none of its fields: methods lend it on with the pixels behind.
#[derive(Clone, Copy)]
struct Masked<const D: usize> {
    at: usize,
    back: Option<usize>,
    pixel: [u8; 3],
    ghost depth: { Depth D },
    ghost there: { row_there back at ≡ true },
}

impl<const D: usize> Masked<D> {
    // Those from n bytes on.
    #[inline(always)]
    fn behind(self, n: usize) -> Self
        requires { self.at + n ≤ 18446744073709551615 }
        ensures { (result.at ≡ self.entry.at + n) × (result.back ≡ self.entry.back) × (result.pixel ≡ self.entry.pixel) }
    {
        let pixel = self.pixel;
        Masked {
            at: self.at + n,
            back: self.back,
            pixel,
        }
    }
}

// Whole masks for pixels of D bytes.
fn masks_of<const D: usize, const N: usize>(
    masks: &[u8],
    dst: &mut [u8],
    at: usize,
    back: Option<usize>,
    pixel: [u8; 3],
)
    requires { Eight D N × (at + length masks.now * 8 * D ≤ length dst.old) }
    ensures { dst.new ≡ run_where (row_there back at) (row_bytes back at (masked_by masks.now 0 D pixel)) at (length masks.now * 8 * D) dst.old }
{
    match back {
        None => Masked::<D> { at, back, pixel }.whole::<N>(masks, dst),
        Some(row) if at < row => {}
        Some(row) if row < N => Masked::<D> { at, back, pixel }.narrow(masks, dst),
        Some(_) => Masked::<D> { at, back, pixel }.whole::<N>(masks, dst),
    }
}

// The first n pixels of one mask for pixels of D bytes.
fn part_of<const D: usize>(
    mask: u8,
    dst: &mut [u8],
    at: usize,
    back: Option<usize>,
    n: usize,
    pixel: [u8; 3],
)
    requires { Depth D × (at + n * D ≤ length dst.old) × (n ≤ 8) }
    ensures { dst.new ≡ run_where (row_there back at) (row_bytes back at (mask_by mask D pixel)) at (n * D) dst.old }
{
    match back {
        None => Masked::<D> { at, back, pixel }.part(mask, dst, n),
        Some(row) if at < row => {}
        Some(_) => Masked::<D> { at, back, pixel }.part(mask, dst, n),
    }
}

// m whole masks from src[pos] on, for 8 * m pixels of d bytes from dst[at] on, in the first row where `back` is none. Nothing where d is no
// depth or bytes have no place.
pub fn masks(
    src: &[u8],
    pos: usize,
    dst: &mut [u8],
    d: usize,
    at: usize,
    back: Option<usize>,
    m: usize,
    pixel: [u8; 3],
)
    ensures { dst.new ≡ run_where (both (row_there back at) (both (there pos m src.now) (pixels_there d at (m * 8) dst.old))) (row_bytes back at (masked_by src.now pos d pixel)) at (m * 8 * d) dst.old }
{
    if dst.len() < at || !pixels_fit(d, m, (dst.len() - at) / 8) {
        return;
    }
    if src.len() < pos || src.len() - pos < m {
        return;
    }
    let masks = &src[pos..pos + m];
    match d {
        1 => masks_of::<1, 8>(masks, dst, at, back, pixel),
        2 => masks_of::<2, 16>(masks, dst, at, back, pixel),
        _ => masks_of::<3, 24>(masks, dst, at, back, pixel),
    }
}

// The first n pixels of the mask src[pos], eight at most, from dst[at] on, in the first row where `back` is none. Nothing where d is no
// depth or bytes have no place. Whole masks have a function of their own, so that the compiler can put this one where it is called.
pub fn mask_part(
    src: &[u8],
    pos: usize,
    dst: &mut [u8],
    d: usize,
    at: usize,
    back: Option<usize>,
    n: usize,
    pixel: [u8; 3],
)
    ensures { dst.new ≡ run_where (both (row_there back at) (both (both (leb n 8) (there pos 1 src.now)) (pixels_there d at n dst.old))) (row_bytes back at (masked_by src.now pos d pixel)) at (n * d) dst.old }
{
    if 8 < n || d == 0 || 3 < d {
        return;
    }
    // n is at most 8 and d at most 3, so that the product cannot wrap; by `pixels_fit` a mask of 1 or 4 pixels takes up to 11 instructions
    // more
    if dst.len() < at || dst.len() - at < n * d {
        return;
    }
    let Some(&mask) = src.get(pos) else {
        return;
    };
    match d {
        1 => part_of::<1>(mask, dst, at, back, n, pixel),
        2 => part_of::<2>(mask, dst, at, back, n, pixel),
        _ => part_of::<3>(mask, dst, at, back, n, pixel),
    }
}
