//! Frames that go out.
ghost use Rattle.std.specs.Prelude.{◌≡◌, IfErr, IfOk};

use crate::ServeFault;
use sg_again::LastFrame;
use sg_base::OutOfMemory;
use std::alloc::Global;

// The same frame.
pub(crate) fn copied(alloc: Global, frame: &LastFrame) -> Result<LastFrame, OutOfMemory>
    ensures { IfOk result (λ f. f ≡ frame.now) }
{
    let bytes = frame.bytes().to_vec(alloc)?;
    Ok(LastFrame::new(frame.number(), frame.to(), frame.at(), bytes))
}

// The same frame, if there is one.
pub(crate) fn copied_if(
    alloc: Global,
    frame: &Option<LastFrame>,
) -> Result<Option<LastFrame>, ServeFault>
    ensures copy { IfOk result (λ f. f ≡ frame.now) }
    ensures memory { IfErr result (λ e. e ≡ ServeFault.OutOfMemory) }
{
    let Some(frame) = frame else {
        return Ok(None);
    };
    match copied(alloc, frame) {
        Ok(frame) => Ok(Some(frame)),
        Err(_) => Err(ServeFault::OutOfMemory),
    }
}
