//! The leave to join a session in a role.
ghost use Rattle.std.specs.Prelude.{◌≡◌};

use sg_base::{Role, Sid};
use std::marker::Model;

/// The leave to join a session in a role, once. It can't be dropped: it is spent by `spend` or by `give_up`, and its pair stays in
/// the cache. A clause sees it as its pair.
pub struct Ticket {
    sid: Sid,
    role: Role,
}

impl Model for Ticket {
    ghost use Rattle.std.specs.Prelude.{ℕ, List};

    ghost Value = { List ℕ × ℕ };

    ghost view = { λ t. (t.sid, t.role) };
}

impl Ticket {
    /// The ticket of a pair that was just put into the cache.
    pub(crate) fn new(sid: Sid, role: Role) -> Ticket
        ensures { result ≡ (sid, role) }
    {
        Ticket { sid, role }
    }

    /// The session. It takes no memory.
    pub fn sid(&self) -> Sid
        ensures { result ≡ self.now.0 }
    {
        self.sid
    }

    /// The role. It takes no memory.
    pub fn role(&self) -> Role
        ensures { result ≡ self.now.1 }
    {
        self.role
    }

    /// Spends the ticket, and gives its pair to whatever begins with it. It takes no memory.
    pub fn spend(self) -> (Sid, Role)
        ensures { result ≡ self }
    {
        let Ticket { sid, role } = self;
        (sid, role)
    }

    /// Spends the ticket for nothing. It takes no memory.
    pub fn give_up(self) {
        let Ticket { sid: _, role: _ } = self;
    }
}
