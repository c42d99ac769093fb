//! A run over the loopback.
use crate::names::NAMES;
use crate::outside::Outside;
use sg_base::{Addr, ByteOut, Link};
use sg_link::UdpLink;
use sg_table::{Calls, answers, hold};
use std::alloc::Global;

#[derive(Drop)]
struct Loopback {
    rt: HostRuntime,
}

impl Calls for Loopback {
    // The last word has the arguments of the program. Behind what the run says comes what its peer received.
    fn answer(&self, alloc: Global, call: &str, args: &[Vec<u8>]) -> Option<Vec<u8>> {
        let _ = call;
        let mut outside = Outside::new(alloc)?;
        self.ran(alloc, &mut outside, args)
    }
}

impl Loopback {
    // What comes of a run.
    fn ran(&self, alloc: Global, outside: &mut Outside, args: &[Vec<u8>]) -> Option<Vec<u8>> {
        let (line, words) = args.split_last()?;
        let _ = answers(alloc, outside, words)?;
        self.put_run(alloc, outside, line)
    }

    fn put_run(&self, alloc: Global, outside: &mut Outside, line: &[u8]) -> Option<Vec<u8>> {
        let mut peer = self.link()?;
        peer.open(ADDR_OF_B).ok()?;
        let mut out = ByteOut::new(alloc);
        self.run(alloc, outside, &mut out, line)?;
        put_received(alloc, &mut out, &mut peer)?;
        Some(out.done())
    }

    fn run(
        &self,
        alloc: Global,
        outside: &mut Outside,
        out: &mut ByteOut,
        line: &[u8],
    ) -> Option<()> {
        let mut link = self.link()?;
        outside.run_over(alloc, out, line, &mut link)
    }

    fn link(&self) -> Option<UdpLink<HostRuntime>> {
        Some(UdpLink::new(self.rt.clone().ok()?))
    }
}

const ADDR_OF_B: Addr = Addr {
    ip: [127, 0, 0, 1],
    port: 4002,
};

fn put_received<L: Link>(alloc: Global, out: &mut ByteOut, link: &mut L) -> Option<()> {
    let received = link.recv(alloc).ok()??;
    out.bytes(&received).ok()
}

#[test]
fn a_run_sends_its_frame_over_the_loopback(rt: HostRuntime) -> Result<(), &'static str> {
    let over = Loopback {
        rt: rt.clone().expect(&rt, "a runtime"),
    };
    hold(rt.alloc(), &over, &[NAMES, LINES])
}

const LINES: &str = "
# A run that starts a session and takes no delivery, and the frame that comes to b.

over $KEYS $ONCE $REQUESTER 'run_k_s_0_p 'status_0^+$LINE2+$FRAME1
";
