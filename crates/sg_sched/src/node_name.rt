//! Names of nodes by their numbers.
ghost use Rattle.std.specs.Prelude.{◌≡◌, ◌∷◌, false, IsTrue};
ghost use Rattle.std.specs.Fmt.{decimal};
ghost use Rattle.sg_model.specs.Names.{is_name, reserved};
ghost use Rattle.sg_model.specs.Lists.{has_text};

use sg_base::Name;

/// The name of node `number`: `n` and the number in decimal digits.
pub fn node_name(number: u8) -> Name
    ensures name { result ≡ 110 ∷ decimal number }
    ensures plain { has_text result reserved ≡ false }
{
    let ones = b'0' + number % 10;
    if number < 10 {
        name_of(&[b'n', ones])
    } else if number < 100 {
        name_of(&[b'n', b'0' + number / 10, ones])
    } else {
        name_of(&[b'n', b'0' + number / 100, b'0' + number / 10 % 10, ones])
    }
}

// The name of bytes that are one.
pub fn name_of(bytes: &[u8]) -> Name
    requires { IsTrue (is_name bytes.now) }
    ensures { result ≡ bytes.now }
{
    match Name::new(bytes) {
        Some(name) => name,
        None => unreachable!(),
    }
}
