//! What holds of all bytes. Each function is a law: it does nothing, and its contract is the statement.
ghost use Rattle.std.specs.Prelude.{◌≡◌, ◌↔◌, ℕ, List, Ok};
ghost use Rattle.sg_protocol.specs.Keyring.{Program};
ghost use Rattle.sg_script.specs.Format.{script_file, SpellsScript};
ghost use Rattle.sg_script.specs.Script.{Script};

/// What is read of the bytes of a script beside programs is what they spell there. So they spell one script at most, and none where they
/// have a fault.
pub fn scripts_are_spelled()
    ensures { (programs : List Program) (bs : List ℕ) (s : Script) → (script_file programs bs ≡ Ok s) ↔ SpellsScript programs bs s }
{}
