/// An IPv4 address and a port, where a link waits or sends.
#[derive(Clone, Copy, PartialEq, Eq)]
pub struct Addr {
    /// The four bytes of the address, in network order.
    pub ip: [u8; 4],
    /// The port, in the host's own order.
    pub port: u16,
}
