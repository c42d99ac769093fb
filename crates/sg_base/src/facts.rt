//! What a type says of its values, for proofs that need it stated.
ghost use Rattle.sg_model.specs.Bytes.{IsBytes};

/// What the type `u8` says of each of these: it is below 256. Nothing is done.
pub fn facts_of_bytes(bytes: &[u8])
    ensures { IsBytes bytes.now }
{}
