//! The roles that have a log.
ghost use Rattle.std.specs.Prelude.{◌≡◌, ◌<◌, ℕ, map};
ghost use Rattle.std.specs.List.{AllByRecursion};
ghost use Rattle.sg_model.specs.Lists.{is_in};
ghost use Rattle.sg_audit.specs.Model.{log_of};
ghost use Rattle.sg_audit.specs.Merged.{roles_of};

use sg_base::{Role, RoleSet, Seq};
use sg_walk::Event;

/// The set of the roles of the logs, which are less than 16.
pub fn roles_of(logs: &[(Role, Seq<Event>)]) -> RoleSet
    requires { AllByRecursion (λ l. l.0 < 16) (map log_of logs.now) }
    ensures { (r : ℕ) → is_in r result ≡ is_in r (roles_of (map log_of logs.now)) }
{
    let mut roles = RoleSet::empty();
    let mut left = logs.len();
    while left > 0 {
        left -= 1;
        roles = roles.with(logs[left].0);
    }
    roles
}
