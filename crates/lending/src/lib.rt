// The areas of the skim tool, arrays on the stack, which a run is lent.
#![tactic(auto)]

ghost use Rattle.reels.specs.Lent.{AreSized};
ghost use Rattle.skimming.specs.Skimming.{Underway, Complete};

use plans::{BLOCK_BYTES, BLOCK_SAMPLES, INPUT_AREA, Plan, SCRATCH_AREA};
use ports::Ports;
use reels::areas::{Areas, Buffers};
use reels::reel::Reel;

// Does a job, in a stage and an output of so many samples.
pub fn skim<const STAGE: usize, const OUTPUT: usize>(
    reel: Reel,
    plan: Plan,
    ports: &mut Ports,
) -> Reel
    requires { Underway plan reel × AreSized plan STAGE OUTPUT }
    ensures { Complete plan result }
{
    let mut areas = Areas {
        input: [0i16; INPUT_AREA],
        stage: [0i16; STAGE],
        output: [0i16; OUTPUT],
        scratch: [0i16; SCRATCH_AREA],
    };
    let mut buffers = Buffers {
        block: [0i16; BLOCK_SAMPLES],
        values: [0f32; BLOCK_SAMPLES],
        bytes: [0u8; BLOCK_BYTES],
    };
    running::run(reel, plan, ports, &mut areas, &mut buffers)
}
