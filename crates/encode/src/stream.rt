// The whole stream: its length, and its bytes.
use crate::head::{head_len, overhead};
use crate::order::{Kind, Order};
use crate::pixels::Pixels;
use copy::copy_in;

impl Pixels<'_> {
    ghost use Rattle.std.specs.Prelude.{◌≡◌, ◌++◌, ◌+◌, ◌*◌, ◌≤◌, leb, length, drop};
    ghost use Rattle.encoding.specs.Bound.{head_size};
    ghost use Rattle.encoding.specs.Encode.{order_bytes};
    ghost use Rattle.encode.specs.Pixels.{pixels_in, stream_in};
    ghost use Rattle.encode.specs.Orders.{order_of, pixels_held};
    ghost use Rattle.encode.specs.Writing.{Writes};

    // Bytes of the pixels that stand in an order.
    fn bytes_held(&self, o: Order) -> usize
        ensures { result ≡ pixels_held o.kind o.pixels * self.now.bytes }
    {
        match o.kind {
            Kind::BgRun => 0,
            Kind::ColorRun => self.bytes,
            Kind::ColorImage => o.pixels * self.bytes,
        }
    }

    // Writes the order o from pixel k on to the front of dst; how many bytes it is. Its pixels stand in the buffer as they stand in the
    // stream.
    fn put_order(&self, k: usize, o: Order, dst: &mut [u8]) -> usize
        requires ends { k + o.pixels ≤ self.now.total }
        requires room { length (order_bytes self.now.bytes (order_of (pixels_in self.now) k o.kind o.pixels)) ≤ length dst.old }
        ensures { Writes (order_bytes self.now.bytes (order_of (pixels_in self.now) k o.kind o.pixels)) dst.old dst.new result }
    {
        let head = o.put_head(dst);
        let held = self.bytes_held(o);
        copy_in(self.src, k * self.bytes, dst, head, held);
        head + held
    }

    // Bytes of an order.
    fn order_len(&self, o: Order) -> usize
        ensures { result ≡ head_size o.pixels + pixels_held o.kind o.pixels * self.now.bytes }
    {
        head_len(o.pixels) + self.bytes_held(o)
    }

    // The length of the stream.
    fn stream_len(&self) -> usize
        ensures { result ≡ length (stream_in self.now) }
    {
        self.orders().map(|(_, order)| self.order_len(order)).sum()
    }

    // Whether the stream has at most so many bytes. It is measured only where the bound on the streams of all such pictures has more.
    pub(crate) fn stream_fits(&self, room: usize) -> bool
        ensures { result ≡ leb (length (stream_in self.now)) room }
    {
        if self.total * self.bytes + overhead(self.bytes, self.total) <= room {
            return true;
        }
        self.stream_len() <= room
    }

    // Writes the stream, which has room in dst; its length. By a loop: what a closure of `fold` changes in dst is not known behind it.
    pub(crate) fn write_stream(&self, dst: &mut [u8]) -> usize
        requires { length (stream_in self.now) ≤ length dst.old }
        ensures { Writes (stream_in self.now) dst.old dst.new result }
    {
        let mut at = 0;
        for (k, order) in self.orders() {
            at += self.put_order(k, order, &mut dst[at..]);
        }
        at
    }
}
