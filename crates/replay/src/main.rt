// Gives the stored sheets of a list to the port and compares its rows with those of the original, byte for byte.
#![tactic(auto)]

ghost use Rattle.std.specs.Prelude.{◌≡◌, is_ok};
ghost use Rattle.replay.specs.Scores.{all_agree};

mod case;
mod comparison;
mod group;
mod header;
mod replay;
mod score;
mod split;
mod summary;
mod verdict;

use anyhow::bail;
use case::cases;
use group::Group;
use replay::replay;
use score::Scores;
use std::{env, fs};
use summary::Summary;

// The line on each group.
fn sum_up(rt: &HostRuntime, scores: &Scores) -> anyhow::Result<()> {
    let groups = [
        (Group::Sample, scores.samples),
        (Group::Corner, scores.corners),
        (Group::Chosen, scores.chosen),
    ];
    for (group, score) in groups {
        println!(rt; "{}", Summary { group, score })?;
    }
    Ok(())
}

// A run ends well if every sheet agrees, and else with an error.
fn conclude(scores: &Scores) -> anyhow::Result<()>
    ensures well_if_every_sheet_agrees { is_ok result ≡ all_agree scores.now }
{
    if !scores.all_agree() {
        bail!("the port does not write what the original writes");
    }
    Ok(())
}

fn run(rt: &HostRuntime) -> anyhow::Result<()> {
    let Some(path) = env::args(rt)?.nth(1) else {
        bail!("there is no stored list: replay LIST");
    };
    let list = fs::read(rt, path.as_str())?;
    let Some(cases) = cases(rt.alloc(), list.as_slice())? else {
        bail!("the stored list has something that is no case");
    };
    let verdicts = replay(rt.alloc(), cases.as_slice())?;
    for verdict in &verdicts {
        if let Some(differing) = verdict.differing()? {
            println!(rt; "{differing}")?;
        }
    }
    let scores = Scores::of(verdicts.as_slice());
    sum_up(rt, &scores)?;
    conclude(&scores)
}

fn main(rt: HostRuntime) -> anyhow::Result<()> {
    run(&rt)
}
