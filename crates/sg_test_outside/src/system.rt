//! Random bytes of the system.
use sg_base::{Fresh, OutOfMemory};
use sg_system::OsFresh;
use std::alloc::Global;

// The next 64 times sixteen bytes of a generator.
fn drawn(alloc: Global, fresh: &mut OsFresh) -> Result<Vec<[u8; 16]>, OutOfMemory> {
    let mut draws = Vec::new(alloc);
    for _ in 0..64u8 {
        draws.push(fresh.next())?;
    }
    Ok(draws)
}

// Whether each bit is 1 in one of these, and 0 in one.
fn comes_both_ways(draws: &[[u8; 16]]) -> bool {
    let mut ones = 0u128;
    let mut zeros = 0u128;
    for draw in draws {
        let bits = u128::from_le_bytes(*draw);
        ones |= bits;
        zeros |= !bits;
    }
    ones == u128::MAX && zeros == u128::MAX
}

// Whether each of them is there once.
fn all_differ(draws: &[[u8; 16]]) -> bool {
    draws.iter().all(|draw| is_once(draws, draw))
}

fn is_once(draws: &[[u8; 16]], wanted: &[u8; 16]) -> bool {
    let mut found = 0u32;
    for draw in draws {
        if draw == wanted {
            found = found.saturating_add(1);
        }
    }
    found == 1
}

#[test]
fn nonces_differ_and_each_bit_comes_both_ways(rt: HostRuntime) -> Result<(), OutOfMemory> {
    let mut one = OsFresh::seeded(&rt).expect(&rt, "a seed");
    let mut other = OsFresh::seeded(&rt).expect(&rt, "a seed");
    let mut draws = drawn(rt.alloc(), &mut one)?;
    let more = drawn(rt.alloc(), &mut other)?;
    assert!(rt; comes_both_ways(&draws));
    assert!(rt; comes_both_ways(&more));
    draws.extend_from_slice(&more)?;
    assert!(rt; all_differ(&draws));
    Ok(())
}
