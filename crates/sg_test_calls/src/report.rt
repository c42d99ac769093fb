//! The lines of the assumptions. No run is known in which two texts have one digest.
use sg_base::{ByteOut, OutOfMemory};
use sg_report::{Forgery, put_premises};
use sg_table::{Calls, hold, name, number};
use std::alloc::Global;

struct Premises;

impl Calls for Premises {
    fn answer(&self, alloc: Global, call: &str, args: &[Vec<u8>]) -> Option<Vec<u8>> {
        let collision_free = call == "collision_free";
        match args {
            [] => lines_of(alloc, None, collision_free).ok(),
            [step, one, two] => {
                let forgery = Forgery {
                    step: number(step)?,
                    one: name(one)?,
                    two: name(two)?,
                };
                lines_of(alloc, Some(&forgery), collision_free).ok()
            }
            _ => None,
        }
    }
}

fn lines_of(
    alloc: Global,
    forged: Option<&Forgery>,
    collision_free: bool,
) -> Result<Vec<u8>, OutOfMemory> {
    let mut out = ByteOut::new(alloc);
    put_premises(&mut out, forged, collision_free)?;
    Ok(out.done())
}

#[test]
fn premises_have_their_lines(rt: HostRuntime) -> Result<(), &'static str> {
    hold(rt.alloc(), &Premises, &[LINES])
}

const LINES: &str = "
collision_free 'premise_unforged_holds^premise_collision-free_holds^
collision_free '2 'a 'b 'premise_unforged_broken_at_step_2_for_a_and_b^premise_collision-free_holds^
collision 'premise_unforged_holds^premise_collision-free_broken^
";
