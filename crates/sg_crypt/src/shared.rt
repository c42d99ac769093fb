//! A cast that several hold.
ghost use Rattle.std.specs.Prelude.{◌≡◌, slice_get, IfOk};
ghost use Rattle.sg_protocol.specs.Frame.{IsCastOf};
ghost use Rattle.sg_protocol.specs.TextLaws.{IsVersion};

use crate::cast::Cast;
use sg_base::{Name, OutOfMemory, Role};
use std::alloc::Global;
use std::marker::Model;
use std::rc::Rc;

/// A cast on the heap, which several holders share: neither moving nor sharing it copies its names. A clause sees it as the
/// cast.
#[derive(Drop)]
pub struct SharedCast {
    cast: Rc<Cast>,
}

impl Model for SharedCast {
    ghost use Rattle.sg_protocol.specs.Frame.{Cast};

    ghost Value = { Cast };

    ghost view = { λ s. s.cast.value };
}

impl SharedCast {
    /// The cast, on the heap.
    pub fn new(alloc: Global, cast: Cast) -> Result<SharedCast, OutOfMemory>
        ensures { IfOk result (λ s. s ≡ cast) }
    {
        Ok(SharedCast {
            cast: Rc::new(alloc, cast)?,
        })
    }

    /// The cast on the heap, if there is one.
    pub fn optional(alloc: Global, cast: Option<Cast>) -> Result<Option<SharedCast>, OutOfMemory>
        ensures { IfOk result (λ s. s ≡ cast) }
    {
        match cast {
            Some(cast) => Ok(Some(SharedCast::new(alloc, cast)?)),
            None => Ok(None),
        }
    }

    /// The same cast, held once more.
    pub fn share(&self) -> Result<SharedCast, OutOfMemory>
        ensures { IfOk result (λ s. s ≡ self.now) }
    {
        Ok(SharedCast {
            cast: self.cast.clone()?,
        })
    }

    /// The cast. It takes no memory.
    pub fn get(&self) -> &Cast
        ensures { result.now ≡ self.now }
    {
        self.cast.as_ref()
    }

    /// The version of the session's frames: 1 or 2. It takes no memory.
    pub fn version(&self) -> u8
        ensures value { result ≡ self.now.version }
        ensures version { IsVersion self.now.version }
        ensures cast { IsCastOf self.now.version self.now }
    {
        self.get().version()
    }

    /// The principal of a role, or `None` if the role isn't below the count. It takes no memory.
    pub fn of(&self, role: Role) -> Option<Name>
        ensures { result ≡ slice_get self.now.names role }
    {
        self.get().of(role)
    }
}
