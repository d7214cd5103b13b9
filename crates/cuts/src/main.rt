// Cuts the power: takes sessions through the C exports on the simulated part, cuts after their transfers and delays, recovers with
// `begin`, and reports what was left.
//
//   cuts full [SEED]     after every step of the slowest full wipe, and of 64 museum sessions
//   cuts short [SEED]    a part of that, in seconds
//
// The rest of chance comes from the seed, 1 if none is given. Progress goes to standard error, the summary to standard output.
#![tactic(auto)]

mod sessions;
mod sweep;

use crate::sessions::all;
use cases::words::number;
use reports::{complain, summary};
use stand::plan::Plan;
use std::env::Env;
use std::io::{Result, Write};

const FULL: Plan = Plan {
    name: "full",
    every: 1,
    sessions: 64,
    total: None,
};

const SHORT: Plan = Plan {
    name: "short",
    every: 199,
    sessions: 16,
    total: None,
};

// Whether a word is a decimal number.
fn is_number(word: &[u8]) -> bool {
    !word.is_empty() && word.iter().all(u8::is_ascii_digit)
}

// Counts the cuts first, without cutting, so that progress can tell how many there will be.
fn run<O: Write, E: Write>(out: &mut O, err: &mut E, plan: Plan, seed: u64) -> Result<()> {
    let counted = all(err, plan, seed)?;
    let whole = Plan {
        total: Some(counted.cuts),
        ..plan
    };
    let tally = all(err, whole, seed)?;
    summary(out, whole, seed, tally)
}

fn chosen<O: Write, E: Write>(out: &mut O, err: &mut E, how: &[u8], seed: u64) -> Result<()> {
    match how {
        b"full" => run(out, err, FULL, seed),
        b"short" => run(out, err, SHORT, seed),
        _ => complain(err, b"the first word is full or short, not", how),
    }
}

fn main(rt: HostRuntime) -> Result<()> {
    let mut out = rt.stdout();
    let mut err = rt.stderr();
    let mut how = [0u8; 4096];
    let n = rt.arg(1, &mut how).unwrap_or(0);
    let mut word = [0u8; 4096];
    let k = rt.arg(2, &mut word).unwrap_or(0);
    if k == 0 {
        return chosen(&mut out, &mut err, &how[..n], 1);
    }
    if is_number(&word[..k]) {
        return chosen(&mut out, &mut err, &how[..n], number(&word[..k]) as u64);
    }
    complain(&mut err, b"the seed is a decimal number, not", &word[..k])
}
