//! The program `bench`: takes the form of one word again and again, and prints the sum of the letter counts.
//! Its input is a line `GROUP LETTERS TIMES`; bench/ times it beside a Rust program of the same rule.

#![tactic(auto)]

use carriers::chamber::Chamber;
use coxeter::group::Group;
use numbers::golden::Golden;
use numbers::number::Number;
use numbers::whole::Whole;
use std::alloc::{AllocError, Global};
use std::io;
use std::io::Read;
use words::calls::form;

// The exponents of a measured group; 0 is inf.
const A8: [[u8; 8]; 8] = [
    [1, 3, 2, 2, 2, 2, 2, 2],
    [3, 1, 3, 2, 2, 2, 2, 2],
    [2, 3, 1, 3, 2, 2, 2, 2],
    [2, 2, 3, 1, 3, 2, 2, 2],
    [2, 2, 2, 3, 1, 3, 2, 2],
    [2, 2, 2, 2, 3, 1, 3, 2],
    [2, 2, 2, 2, 2, 3, 1, 3],
    [2, 2, 2, 2, 2, 2, 3, 1],
];

const E8: [[u8; 8]; 8] = [
    [1, 2, 3, 2, 2, 2, 2, 2],
    [2, 1, 2, 3, 2, 2, 2, 2],
    [3, 2, 1, 3, 2, 2, 2, 2],
    [2, 3, 3, 1, 3, 2, 2, 2],
    [2, 2, 2, 3, 1, 3, 2, 2],
    [2, 2, 2, 2, 3, 1, 3, 2],
    [2, 2, 2, 2, 2, 3, 1, 3],
    [2, 2, 2, 2, 2, 2, 3, 1],
];

const H4: [[u8; 8]; 8] = [
    [1, 5, 2, 2, 0, 0, 0, 0],
    [5, 1, 3, 2, 0, 0, 0, 0],
    [2, 3, 1, 3, 0, 0, 0, 0],
    [2, 2, 3, 1, 0, 0, 0, 0],
    [0; 8],
    [0; 8],
    [0; 8],
    [0; 8],
];

const F8: [[u8; 8]; 8] = [
    [1, 0, 0, 0, 0, 0, 0, 0],
    [0, 1, 0, 0, 0, 0, 0, 0],
    [0, 0, 1, 0, 0, 0, 0, 0],
    [0, 0, 0, 1, 0, 0, 0, 0],
    [0, 0, 0, 0, 1, 0, 0, 0],
    [0, 0, 0, 0, 0, 1, 0, 0],
    [0, 0, 0, 0, 0, 0, 1, 0],
    [0, 0, 0, 0, 0, 0, 0, 1],
];

// A word of the letters 1 to rank, the same at each run.
fn mixed(heap: Global, rank: u8, letters: usize) -> Result<Vec<u8>, AllocError> {
    let mut word = Vec::new(heap);
    let mut state = 1u32;
    for _ in 0..letters {
        state = state.wrapping_mul(1_103_515_245).wrapping_add(12_345);
        word.push(((state >> 16) % u32::from(rank.max(1))) as u8 + 1)?;
    }
    Ok(word)
}

// The letters 1 to 8 up and down again, so that a group without relations stays in reach.
fn up_and_down(heap: Global, letters: usize) -> Result<Vec<u8>, AllocError> {
    let turn = [1, 2, 3, 4, 5, 6, 7, 8, 8, 7, 6, 5, 4, 3, 2, 1];
    (0..letters).map(|k| turn[k % 16]).collect(heap)
}

// The sum of the letter counts of so many forms of the word, or nothing where a check refuses.
fn forms<N: Number>(group: Group, row: &mut [N], word: &[u8], times: u32) -> Option<u64> {
    match Chamber::check(&group, row) {
        Ok(()) => {
            let mut chamber = Chamber::make(group, row);
            let mut out = [0; 4096];
            let mut sum = 0u64;
            for _ in 0..times {
                let n = form(&mut chamber, word, &mut out).ok()?;
                sum = sum.wrapping_add(n as u64);
            }
            Some(sum)
        }
        Err(_) => None,
    }
}

// The group of a name.
fn group(name: &str) -> Option<Group> {
    let (rank, rows) = match name {
        "A8" => (8, A8),
        "E8" => (8, E8),
        "H4" => (4, H4),
        "F8" => (8, F8),
        _ => return None,
    };
    if Group::check(rank, &rows) {
        Some(Group::make(rank, rows))
    } else {
        None
    }
}

fn main(rt: HostRuntime) -> io::Result<()> {
    let mut input = String::new(rt.alloc());
    let _ = rt.stdin().read_to_string(&mut input)?;
    let mut parts = input.as_str().split_whitespace();
    let (Some(name), Some(letters), Some(times)) = (parts.next(), parts.next(), parts.next()) else {
        return Ok(());
    };
    let (Ok(letters), Ok(times)) = (letters.parse::<usize>(), times.parse::<u32>()) else {
        return Ok(());
    };
    let Some(group) = group(name) else {
        return Ok(());
    };
    let word = if name == "F8" {
        up_and_down(rt.alloc(), letters)?
    } else {
        mixed(rt.alloc(), group.rank(), letters)?
    };
    let sum = if name == "H4" {
        forms(group, &mut [Golden::one(); 8], word.as_slice(), times)
    } else {
        forms(group, &mut [Whole::one(); 8], word.as_slice(), times)
    };
    match sum {
        Some(sum) => println!(rt; "{sum}"),
        None => println!(rt; "refused"),
    }
}
