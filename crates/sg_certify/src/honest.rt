//! Which principals are honest, and which roles of a cast.
ghost use Rattle.std.specs.Prelude.{◌≡◌, ℕ, List};
ghost use Rattle.sg_model.specs.Lists.{has_text};
ghost use Rattle.sg_certify.specs.Adding.{AreHonestIn};

use sg_base::{Name, Role, RoleSet};
use sg_crypt::Cast;

/// Which principals are honest, as a look-up.
pub trait Honest {
    ghost names: { Self → List (List ℕ) };

    /// Whether the principal is honest.
    fn is_honest(&self, name: &Name) -> bool
        ensures { result ≡ has_text name.now (names self.now) };
}

/// The roles of the cast whose principals are honest. It takes no memory.
pub fn honest_roles<H: Honest>(honest: &H, cast: &Cast) -> RoleSet
    ensures { AreHonestIn (H.names honest.now) cast.now result }
{
    let mut roles = RoleSet::empty();
    let names = cast.names();
    for role in 0..cast.count() {
        if honest.is_honest(&names[role as usize]) {
            roles = roles.with(Role(role));
        }
    }
    roles
}
