// A whole reel of the skim tool: the turns of `skimming`, a few at a time, since between them `progress` tells how
// far the run is.
#![tactic(auto)]

ghost use Rattle.reels.specs.Lent.{AreSized};
ghost use Rattle.skimming.specs.Skimming.{Underway, Complete};

use plans::Plan;
use ports::Ports;
use reels::areas::{Areas, Buffers};
use reels::reel::Reel;

// Does a job in areas that are lent. A proved loop has to end, and nothing says that the input does: a run that uses up
// its rounds, which none does, has failed.
pub fn run<const STAGE: usize, const OUTPUT: usize>(
    mut reel: Reel,
    plan: Plan,
    ports: &mut Ports,
    areas: &mut Areas<STAGE, OUTPUT>,
    buffers: &mut Buffers,
) -> Reel
    requires { Underway plan reel × AreSized plan STAGE OUTPUT }
    ensures { Complete plan result }
{
    for _round in 0..u64::MAX {
        if !reel.reads_more() {
            break;
        }
        let before = reel.frames_in;
        reel = skimming::turns(reel, plan, ports, areas, buffers);
        progress::show(ports, reel, before, plan.opening());
    }
    skimming::finish(
        reel,
        plan,
        ports,
        areas,
        &mut buffers.values,
        &mut buffers.bytes,
    )
}
