// Places in a stream.
ghost use Rattle.std.specs.Prelude.{◌≤◌, length};

use buf::Buf;

// A stream with a place in it, which is at most its end: from there on an order's run length is read, where its header does not have it.
#[derive(Clone, Copy)]
pub(crate) struct Reader<'a> {
    pub(crate) at: Buf<'a>,
    pub(crate) ghost inside: { at.pos ≤ length at.inner.now },
}
