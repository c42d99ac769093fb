//! The certificate of a session: whether one walk explains what the honest roles of a session have done.
//!
//! A store goes along a stored walk, in which each step puts what it writes over what was there. A stored walk explains the events of a
//! session if the honest roles' sends and receipts along it are these events, in order and with their values: a send carries what
//! its step writes, a receipt what the store has after its own step. Only a last receipt, by an honest role from an honest role, may be
//! still to come. An honest role has sent or received the last step, and exactly the values that no honest role has written or received
//! are hidden.
#![tactic(auto)]

mod part;

pub use part::check_part;
