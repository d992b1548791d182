// The plain decoder's loop over the stream's orders.
use crate::decode::Decoder;
use crate::frame::Frame;
use crate::head::read_head;
use crate::order::Order;
use crate::plain::order::order;
use crate::state::{State, Stepped};

// The decoder whose pixels are painted one by one. Its loop is no iterator for the same reason as the other's.
pub(crate) struct Plain;

impl Decoder for Plain {
    fn decode(src: &[u8], dst: &mut [u8], f: Frame) -> Stepped {
        let mut s = State::start(f);
        loop {
            let mut t = s;
            // The first row ends for good once it is painted, and a pending insert is dropped there.
            t.walk.first_row &= s.walk.pixels < f.width;
            t.walk.insert &= t.walk.first_row == s.walk.first_row;
            match read_head(src, s.walk.pos) {
                Ok(None) => {
                    return Stepped {
                        ending: Ok(()),
                        state: s,
                    };
                }
                Err(r) => {
                    t.walk.pos = r.next;
                    return Stepped {
                        ending: Err(r.error),
                        state: t,
                    };
                }
                Ok(Some(o)) => {
                    t.walk.pos = o.next;
                    let next = Order {
                        src,
                        frame: f,
                        state: t,
                        kind: o.kind,
                        run_length: o.run_length,
                    };
                    let r = order(dst, next);
                    if r.ending.is_err() {
                        return r;
                    }
                    s = r.state;
                }
            }
        }
    }
}
