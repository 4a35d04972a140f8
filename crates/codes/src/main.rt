//! Reads a kind's letter and label codes from standard input, and says of each code whether the kind knows it
//! under the renames of the file `renames`, and which earlier code is the same label.
#![tactic(auto)]

use anyhow::anyhow;
use judging::files::{read_input, read_renames_file};
use judging::stop::{Stop, print_refusal};
use judging::{MOST_INPUT, check_input, read_codes, read_renames};
use labels::among::standing;
use labels::kind::Kind;
use labels::numbers::Numbers;
use labels::tags::Tags;
use std::io;

// A line for each code.
fn print_codes<K: Kind>(rt: &HostRuntime, kind: &K, codes: &[u32]) -> io::Result<()> {
    for (i, code) in codes.iter().enumerate() {
        match standing(kind, &codes[0..i], *code) {
            Err(_) => println!(rt; "code {i} {code} unknown")?,
            Ok(None) => println!(rt; "code {i} {code} known")?,
            Ok(Some(first)) => println!(rt; "code {i} {code} same {first}")?,
        }
    }
    Ok(())
}

fn run(rt: &HostRuntime) -> Result<(), Stop> {
    // by a cast: From does not go from usize to u64
    let input = read_input(rt, MOST_INPUT as u64 + 1)?;
    check_input(input.len())?;
    let [letter, bytes @ ..] = input.as_slice() else {
        return Err(anyhow!("no letter: the input is a kind's letter and then codes").into());
    };
    if bytes.len() % 4 != 0 {
        return Err(anyhow!("the codes are not whole: four bytes each").into());
    }
    let codes = read_codes(rt.alloc(), bytes)?;
    let renames = read_renames_file(rt)?;
    match *letter {
        b'N' => print_codes(rt, &read_renames(Numbers, &renames)?, &codes)?,
        b'T' => print_codes(rt, &read_renames(Tags, &renames)?, &codes)?,
        _ => return Err(anyhow!("the letter is neither N nor T").into()),
    }
    Ok(())
}

fn main(rt: HostRuntime) -> anyhow::Result<()> {
    print_refusal(&rt, run(&rt))
}
