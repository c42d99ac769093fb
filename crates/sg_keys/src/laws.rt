//! What holds of all bytes. Each function is a law: it does nothing, and its contract is the statement.
ghost use Rattle.std.specs.Prelude.{◌≡◌, ◌↔◌, ℕ, List, Ok};
ghost use Rattle.sg_protocol.specs.Keyring.{Keyring};
ghost use Rattle.sg_keys.specs.KeyFile.{key_file, SpellsKeys};

/// What is read of the bytes of a key file is what they spell. So they spell one keyring at most, and none where they have a fault.
pub fn key_files_are_spelled()
    ensures { (bs : List ℕ) (k : Keyring) → (key_file bs ≡ Ok k) ↔ SpellsKeys bs k }
{}
