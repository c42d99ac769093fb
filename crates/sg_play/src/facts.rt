//! What the type of a cast says of it.
ghost use Rattle.sg_protocol.specs.Ranges.{IsCast};

use sg_crypt::Cast;

/// What the type says of a cast.
pub(crate) fn facts_of_cast(cast: &Cast)
    ensures { IsCast cast.now }
{
    let _ = cast.version();
}
