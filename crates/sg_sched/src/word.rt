//! What single words of a line spell, besides numbers and bytes.
ghost use Rattle.std.specs.Prelude.{◌≡◌};
ghost use Rattle.sg_base.specs.Words.{name};
ghost use Rattle.sg_sched.specs.Words.{frame, numbered};

use sg_base::{Name, read_number};

/// A name.
#[tactic(auto, unfolding(sg_base::specs::Words::name))]
pub fn read_name(word: &[u8]) -> Option<Name>
    ensures { result ≡ name word.now }
{
    Name::new(word)
}

/// A recorded frame: `f` and its number, from 1 on.
#[tactic(auto, unfolding(crate::specs::Words::frame))]
pub fn read_frame(word: &[u8]) -> Option<u32>
    ensures { result ≡ frame word.now }
{
    read_numbered(b'f', word)
}

/// A letter and a number, from 1 on.
pub fn read_numbered(letter: u8, word: &[u8]) -> Option<u32>
    ensures { result ≡ numbered letter word.now }
{
    let [first, digits @ ..] = word else {
        return None;
    };
    if *first != letter {
        return None;
    }
    let number = read_number(digits, u64::from(u32::MAX))?;
    if number == 0 {
        return None;
    }
    Some(number as u32)
}
