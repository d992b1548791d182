// Copies of bytes into a target, from a row back or from another slice. Place, length and row go on one by one: behind `copy_back`
// only `back_blocks`, `copy_rows` and `copy_row` take all three. The first hands on another place for each block, and the second calls the third
// with other numbers for each part, so that a struct would be made anew at each call.
#![tactic(auto)]

ghost use Rattle.std.specs.Prelude.{◌≡◌, ℕ, ◌+◌, ◌-◌, ◌≤◌, ◌<◌, leb, ltb, length, get_or};
ghost use Rattle.base.specs.Picks.{pick};
ghost use Rattle.byte_runs.specs.Runs.{run, run_where, both, there, above, taken};

// Parts of a long run double up to less than twice as many bytes.
const SHORT: usize = 2048;

// The N bytes of src from `at` on in place of as many. They are all read before one is written: of a copy from slice to slice the compiler
// makes a test whether both overlap, and of copies one behind the other, or of any length, a call of the C library, which programs that link
// the library would have to bring.
#[inline(always)]
fn copy_block<const N: usize>(dst: &mut [u8], src: &[u8], at: usize)
    requires { (length dst.old ≡ length src.now) × (at + N ≤ length src.now) }
    ensures same_length { length dst.new ≡ length dst.old }
    ensures bytes { (k : ℕ) → k < length src.now → get_or dst.new k 0 ≡ pick (leb at k) (pick (ltb k (at + N)) (get_or src.now k 0) (get_or dst.old k 0)) (get_or dst.old k 0) }
{
    let mut t = [0; N];
    t.copy_from_slice(&src[at..at + N]);
    dst[at..at + N].copy_from_slice(&t);
}

// The bytes of src in place of as many, by blocks of N, the last one overlapping.
#[inline(always)]
fn copy_blocks<const N: usize>(dst: &mut [u8], src: &[u8])
    requires { (length dst.old ≡ length src.now) × (0 < N) × (N ≤ length src.now) }
    ensures { dst.new ≡ src.now }
{
    let last = src.len() - N;
    for i in (0..last).step_by(N) {
        copy_block::<N>(dst, src, i);
    }
    copy_block::<N>(dst, src, last);
}

// Three bytes at most in place of as many: the first, the middle and the last.
#[inline(always)]
fn copy_few(dst: &mut [u8], src: &[u8])
    requires { (length dst.old ≡ length src.now) × (length src.now < 4) }
    ensures { dst.new ≡ src.now }
{
    let len = src.len();
    if len == 0 {
        return;
    }
    dst[0] = src[0];
    dst[len / 2] = src[len / 2];
    dst[len - 1] = src[len - 1];
}

// The bytes of src in place of as many.
#[inline(always)]
fn copy_bytes(dst: &mut [u8], src: &[u8])
    requires { length dst.old ≡ length src.now }
    ensures { dst.new ≡ src.now }
{
    match src.len() {
        0..4 => copy_few(dst, src),
        4..8 => copy_blocks::<4>(dst, src),
        8..16 => copy_blocks::<8>(dst, src),
        _ => copy_blocks::<16>(dst, src),
    }
}

// 16 bytes from dst[to] on, those `row` places back, read before they are written as in `copy_block`. They are read by an index: of a copy
// from the slice that is written the compiler makes a test at each block whether the array overlaps it.
#[inline(always)]
fn back_block(dst: &mut [u8], to: usize, row: usize)
    requires { (to + 16 ≤ length dst.old) × (row ≤ to) × (16 ≤ row) }
    ensures { dst.new ≡ run (taken dst.old (to - row)) to 16 dst.old }
{
    let from = to - row;
    let mut t = [0; 16];
    for i in 0..16 {
        t[i] = dst[from + i];
    }
    dst[to..to + 16].copy_from_slice(&t);
}

// len bytes from dst[at] on, by blocks, the last one overlapping. No block is longer than the row, so that each reads what is written. No
// `inline(never)` here: as a call of its own it tests at each block whether the array overlaps the slice, and long runs take twice the
// instructions.
fn back_blocks(dst: &mut [u8], at: usize, len: usize, row: usize)
    requires { (at + len ≤ length dst.old) × (row ≤ at) × (16 ≤ row) × (16 ≤ len) }
    ensures { dst.new ≡ run (above at row) at len dst.old }
{
    let last = len - 16;
    for i in (0..last).step_by(16) {
        back_block(dst, at + i, row);
    }
    back_block(dst, at + last, row);
}

// len bytes from dst[at] on, no more than a row.
fn copy_row(dst: &mut [u8], at: usize, len: usize, row: usize)
    requires { (at + len ≤ length dst.old) × (row ≤ at) × (len ≤ row) }
    ensures { dst.new ≡ run (above at row) at len dst.old }
{
    let (above, below) = dst.split_at_mut(at);
    let from = at - row;
    copy_bytes(&mut below[..len], &above[from..from + len]);
}

// len bytes from dst[at] on, in rows shorter than a block. What stands from a row back on is the row over and over, so a part is copied from
// as many bytes back as are there, and the parts double while they are short, so that no `for` counts them. It stays a call: inlined, runs
// take 2 to 5 instructions more, for registers.
#[inline(never)]
fn copy_rows(dst: &mut [u8], at: usize, len: usize, row: usize)
    requires { (at + len ≤ length dst.old) × (row ≤ at) }
    ensures { dst.new ≡ run (above at row) at len dst.old }
{
    if row == 0 {
        return;
    }
    let mut done = 0;
    let mut back = row;
    while done < len {
        let n = back.min(len - done);
        copy_row(dst, at + done, n, back);
        done += n;
        if back < SHORT {
            back *= 2;
        }
    }
}

// len bytes from dst[at] on, each the one `row` places back; nothing where they or the bytes back there have no place.
pub fn copy_back(dst: &mut [u8], at: usize, len: usize, row: usize)
    ensures { dst.new ≡ run_where (both (leb row at) (there at len dst.old)) (above at row) at len dst.old }
{
    if at < row || dst.len() < at || dst.len() - at < len {
        return;
    }
    if 16 <= row && 16 <= len {
        back_blocks(dst, at, len, row);
    } else if len <= row {
        copy_row(dst, at, len, row);
    } else {
        copy_rows(dst, at, len, row);
    }
}

// len bytes from dst[at] on, those of src from `from` on; nothing where either have no place.
pub fn copy_in(src: &[u8], from: usize, dst: &mut [u8], at: usize, len: usize)
    ensures { dst.new ≡ run_where (both (there from len src.now) (there at len dst.old)) (taken src.now from) at len dst.old }
{
    if src.len() < from || src.len() - from < len || dst.len() < at || dst.len() - at < len {
        return;
    }
    copy_bytes(&mut dst[at..at + len], &src[from..from + len]);
}
