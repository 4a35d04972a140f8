//! The program: judges the stream on standard input, under the renames of the file `renames`.
#![tactic(auto)]

use anyhow::anyhow;
use judging::files::{read_input, read_renames_file};
use judging::stop::{Stop, print_refusal};
use judging::{MOST_INPUT, check_input, is_for_tags, read_renames};
use labels::numbers::Numbers;
use labels::renames::Renames;
use labels::tags::Tags;

// What is done with a layer of renames once it stands.
fn judge_under<K: Drop>(_layer: Renames<K>) -> anyhow::Result<()> {
    Err(anyhow!("this build reads its input and the renames, and cannot judge streams yet"))
}

fn run(rt: &HostRuntime) -> Result<(), Stop> {
    // by a cast: From does not go from usize to u64
    let input = read_input(rt, MOST_INPUT as u64 + 1)?;
    check_input(input.len())?;
    let renames = read_renames_file(rt)?;
    if is_for_tags(&input) {
        judge_under(read_renames(Tags, &renames)?)?;
    } else {
        judge_under(read_renames(Numbers, &renames)?)?;
    }
    Ok(())
}

fn main(rt: HostRuntime) -> anyhow::Result<()> {
    print_refusal(&rt, run(&rt))
}
