// A test: what the library prints for each block file of data/, held to stdout. tests/make_plans.py makes the files and says what
// must be printed.
#![tactic(auto)]

use std::rt::Files;
use std::{fs, io};

// The name of a file, then its text.
fn case(rt: &(impl Files + Print + Eprint), name: &str) -> io::Result<()> {
    println!(rt; "{name}")?;
    let mut opened = match fs::open(rt, name) {
        Ok(opened) => opened,
        Err(error) => return eprintln!(rt; "{name}: {error}"),
    };
    let mut file = [0u8; 9217];
    let size = input::read_full(&mut opened, &mut file)?;
    let mut text = [0u8; 25600];
    match print::plan_text(&file[..size], &mut text) {
        Ok(end) => rt.write_all(&text[..end]),
        Err(_) => Ok(()),
    }
}

// Each of some files, one after the other.
fn cases(rt: &(impl Files + Print + Eprint), names: &[&str]) -> io::Result<()> {
    for name in names {
        case(rt, name)?;
    }
    Ok(())
}

// The worked weeks.
fn worked_weeks(rt: &(impl Files + Print + Eprint)) -> io::Result<()> {
    cases(
        rt,
        &[
            "f_00.blk",
            "f_10.blk",
            "f_11.blk",
            "f_12.blk",
            "f_20.blk",
            "f_later.blk",
            "f_later_firm.blk",
            "one_lot.blk",
            "one_lot_firm.blk",
            "two_lots_10.blk",
            "two_lots_11.blk",
        ],
    )
}

// One lot that has another slot, four lots, and 24.
fn other_weeks(rt: &(impl Files + Print + Eprint)) -> io::Result<()> {
    cases(
        rt,
        &[
            "one_lot_two_slots.blk",
            "four_apart_20.blk",
            "four_apart_23.blk",
            "four_apart_gap.blk",
            "free_spread.blk",
            "free_high.blk",
        ],
    )
}

// Files of a wrong length, check or number.
fn wrong_blocks(rt: &(impl Files + Print + Eprint)) -> io::Result<()> {
    cases(
        rt,
        &[
            "g1easy_23_s0.blk",
            "g1later_21_s0.blk",
            "empty.blk",
            "short.blk",
            "long.blk",
            "block_missing.blk",
            "block_too_many.blk",
            "check.blk",
            "number.blk",
            "number_last.blk",
        ],
    )
}

// Numbers outside their limits.
fn wrong_numbers(rt: &(impl Files + Print + Eprint)) -> io::Result<()> {
    cases(
        rt,
        &[
            "n_0.blk",
            "n_25.blk",
            "a_3.blk",
            "b_4.blk",
            "alternative_2.blk",
            "gap_alone.blk",
            "helper_2.blk",
            "gap_16.blk",
        ],
    )
}

// Filling and tables that break their rules.
fn wrong_tables(rt: &(impl Files + Print + Eprint)) -> io::Result<()> {
    cases(
        rt,
        &[
            "filling.blk",
            "domain_empty.blk",
            "loss_outside.blk",
            "give_outside.blk",
            "tie_outside_own.blk",
            "tie_outside_other.blk",
        ],
    )
}

fn main(rt: HostRuntime) -> io::Result<()> {
    worked_weeks(&rt)?;
    other_weeks(&rt)?;
    wrong_blocks(&rt)?;
    wrong_numbers(&rt)?;
    wrong_tables(&rt)?;
    Ok(())
}
