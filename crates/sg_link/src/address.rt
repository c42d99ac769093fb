//! Addresses as the system's sockets take them.

use sg_base::Addr;
use std::net::{Ipv4Addr, SocketAddr, SocketAddrV4};

/// The address as the system's sockets take it.
pub fn socket_addr(at: Addr) -> SocketAddr {
    let [a, b, c, d] = at.ip;
    SocketAddr::V4(SocketAddrV4::new(Ipv4Addr::new(a, b, c, d), at.port))
}
