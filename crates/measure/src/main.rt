//! Runs the proved cores on large inputs, so that they can be timed beside plain programs.
#![tactic(auto)]

mod columns;
mod draws;
mod entries;
mod expressions;
mod layout;
mod lines;
mod pairs;
mod ranges;
mod steps;
mod values;
mod words;

use columns::{WIDTH, least_columns};
use entries::totals_of_entries;
use expressions::totals_of_expressions;
use layout::{SLOT_LIMIT, totals_of_layout};
use lines::sums_of;
use pairs::sum_of_pairs;
use ranges::{ITEM_LIMIT, Shape, sums_of_ranges};
use std::io::{self, ErrorKind};
use std::process::ExitCode;
use std::{env, fs};
use steps::sum_of_steps;
use values::{drawn_entries, totals_of_values};
use words::{Work, work_of};

// The program's arguments without its own name.
fn arguments(rt: &HostRuntime) -> io::Result<Vec<String>> {
    let mut words = Vec::new(rt.alloc());
    for word in env::args(rt)?.skip(1) {
        words.push(word)?;
    }
    Ok(words)
}

fn measure_lines(rt: &HostRuntime, file: &str) -> io::Result<()> {
    let section = fs::read(rt, file)?;
    match sums_of(&section) {
        Ok(sums) => println!(rt;
            "{} rows, sums {} {} {}",
            sums.rows, sums.addresses, sums.lines, sums.others
        ),
        Err(_) => Err(ErrorKind::InvalidData.into()),
    }
}

fn measure_steps(rt: &HostRuntime, count: u64) -> io::Result<()> {
    println!(rt; "{count} steps, sum {}", sum_of_steps(count))
}

fn measure_pairs(rt: &HostRuntime, count: u32) -> io::Result<()> {
    match sum_of_pairs(rt.alloc(), count) {
        Ok(sum) => println!(rt; "{count} pairs, sum {sum}"),
        Err(_) => Err(ErrorKind::OutOfMemory.into()),
    }
}

fn measure_layout(rt: &HostRuntime, count: u32) -> io::Result<()> {
    if count > SLOT_LIMIT {
        return Err(ErrorKind::InvalidInput.into());
    }
    match totals_of_layout(rt.alloc(), count) {
        Ok(totals) => println!(rt;
            "{count} slots, sum {}, last rank {}",
            totals.size, totals.last_rank
        ),
        Err(_) => Err(ErrorKind::OutOfMemory.into()),
    }
}

fn measure_values(rt: &HostRuntime, count: u64) -> io::Result<()> {
    let Ok(entries) = drawn_entries(rt.alloc(), count) else {
        return Err(ErrorKind::OutOfMemory.into());
    };
    match totals_of_values(&entries) {
        Ok(totals) => println!(rt;
            "{} values, {} bytes, sum {}",
            totals.values, totals.bytes, totals.sum
        ),
        Err(_) => Err(ErrorKind::InvalidData.into()),
    }
}

fn measure_ranges(rt: &HostRuntime, shape: Shape, count: u32) -> io::Result<()> {
    if shape.is_one && count > ITEM_LIMIT {
        return Err(ErrorKind::InvalidInput.into());
    }
    match sums_of_ranges(rt.alloc(), shape, count) {
        Ok(sums) => println!(rt;
            "{count} items, sizes {}, potentials {}, picks {}",
            sums.sizes, sums.potentials, sums.picks
        ),
        Err(_) => Err(ErrorKind::OutOfMemory.into()),
    }
}

fn measure_expressions(rt: &HostRuntime, count: u64) -> io::Result<()> {
    match totals_of_expressions(rt.alloc(), count) {
        Ok(totals) => println!(rt;
            "{} operations, {} bytes, sum {}",
            totals.operations, totals.bytes, totals.sum
        ),
        Err(_) => Err(ErrorKind::OutOfMemory.into()),
    }
}

fn measure_entries(rt: &HostRuntime, file: &str) -> io::Result<()> {
    let info = fs::read(rt, file)?;
    let name = format!(in rt.alloc(); "{file}.abbrev")?;
    let table = fs::read(rt, &name)?;
    if table.is_empty() {
        return Err(ErrorKind::InvalidData.into());
    }
    match totals_of_entries(rt.alloc(), &info, &table) {
        Ok(totals) => println!(rt;
            "{} entries, {} values, sum {}",
            totals.entries, totals.values, totals.sum
        ),
        Err(_) => Err(ErrorKind::InvalidData.into()),
    }
}

fn measure_columns(rt: &HostRuntime, count: u64) -> io::Result<()> {
    let entries = count / WIDTH;
    let Ok(columns) = least_columns(rt.alloc(), entries) else {
        return Err(ErrorKind::OutOfMemory.into());
    };
    print!(rt; "{} values, forms", entries * WIDTH)?;
    for column in &columns {
        print!(rt; " {}", column.form)?;
    }
    println!(rt)
}

fn main(rt: HostRuntime) -> io::Result<ExitCode> {
    let words = arguments(&rt)?;
    match work_of(&words) {
        Some(Work::Lines(file)) => measure_lines(&rt, file)?,
        Some(Work::Steps(count)) => measure_steps(&rt, count)?,
        Some(Work::Pairs(count)) => measure_pairs(&rt, count)?,
        Some(Work::Layout(count)) => measure_layout(&rt, count)?,
        Some(Work::Values(count)) => measure_values(&rt, count)?,
        Some(Work::Columns(count)) => measure_columns(&rt, count)?,
        Some(Work::Entries(file)) => measure_entries(&rt, file)?,
        Some(Work::Ranges(shape, count)) => measure_ranges(&rt, shape, count)?,
        Some(Work::Expressions(count)) => measure_expressions(&rt, count)?,
        None => {
            eprintln!(rt;
                "usage: measure lines FILE | measure steps COUNT | measure pairs COUNT | measure layout COUNT | measure values COUNT | measure columns COUNT | measure entries FILE | measure ranges lists|indexed-lists|list|indexed-list COUNT | measure expressions COUNT"
            )?;
            return Ok(ExitCode::from(2));
        }
    }
    Ok(ExitCode::SUCCESS)
}
