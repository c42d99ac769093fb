//! The edge to the network: frames as UDP datagrams, and connections over TCP, over which a `StreamLink` carries frames.
//!
//! A frame has at most 60,000 bytes, and a datagram over IPv4 carries up to 65,507 (RFC 768, RFC 791), so each frame is one datagram.
//! What comes is handed on as it is: whether it is a frame, and whose, is for the node to say. The content of a link is not known,
//! and that the system sends and receives what it is given is trusted; tests over the loopback show it.
//!
//! `watch` and `waiting` are how any edge over connections waits for them.
#![tactic(auto)]

mod address;
mod datagrams;
mod giving;
mod inbox;
mod intake;
mod tcp;
mod udp;
pub mod waiting;
pub mod watch;

pub use address::socket_addr;
pub use tcp::TcpConns;
pub use udp::UdpLink;
