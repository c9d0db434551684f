//! Reads the session files of `readings.txt` one by one and prints, for each, what `normalize` would print.
//!
//! The archive is made of lines: `case NAME` begins a file, `t PIECE` appends a piece of it, and `r COUNT PIECE` appends
//! the piece so many times. In a piece a backslash and a letter stand for a byte that a line of text can't show.
//! A text of more than 400 bytes is printed by its length and a sum.
#![tactic(auto)]

use anyhow::anyhow;
use standard::source::answered;
use std::alloc::{AllocError, Global};
use std::fs;
use std::io::Write;

// The longest text that is printed whole.
const WHOLE: usize = 400;

// The byte that a letter after a backslash stands for.
fn escaped(letter: u8) -> u8 {
    match letter {
        b'n' => b'\n',
        b'r' => b'\r',
        b't' => b'\t',
        b'0' => 0,
        b'd' => 127,
        b'h' => 200,
        b'e' => b' ',
        _ => letter,
    }
}

// Appends a piece.
fn append(file: &mut Vec<u8>, piece: &str) -> Result<(), AllocError> {
    let mut bytes = piece.bytes();
    while let Some(byte) = bytes.next() {
        if byte != b'\\' {
            file.push(byte)?;
        } else if let Some(letter) = bytes.next() {
            file.push(escaped(letter))?;
        }
    }
    Ok(())
}

// A sum of the bytes that depends on their order.
fn sum_of(text: &[u8]) -> u32 {
    text.iter().fold(0, |sum: u32, byte| {
        sum.wrapping_mul(31).wrapping_add(u32::from(*byte))
    })
}

// Prints what `normalize` prints of a file.
fn show(rt: &HostRuntime, heap: Global, file: &[u8]) -> anyhow::Result<()> {
    let text = answered(heap, file)?;
    let length = text.len();
    if length > WHOLE {
        let sum = sum_of(&text);
        println!(rt; "bytes {length} sum {sum}")?;
    } else {
        rt.stdout().write_all(&text)?;
    }
    Ok(())
}

// The count at the front of a text, and the piece after its space.
fn counted(text: &str) -> (u32, &str) {
    let (count, piece) = text.split_once(' ').unwrap_or((text, text));
    let count = count.bytes().fold(0, |count: u32, digit| {
        count
            .wrapping_mul(10)
            .wrapping_add(u32::from(digit))
            .wrapping_sub(48)
    });
    (count, piece)
}

fn main(rt: HostRuntime) -> anyhow::Result<()> {
    let heap = rt.alloc();
    let archive = fs::read_to_string(&rt, "readings.txt")?;
    let mut file = Vec::new(heap);
    let mut is_first = true;
    for line in archive.as_str().lines() {
        match line.split_once(' ') {
            Some(("case", _)) => {
                if !is_first {
                    show(&rt, heap, &file)?;
                }
                is_first = false;
                file.clear();
                println!(rt; "{line}")?;
            }
            Some(("t", piece)) => append(&mut file, piece)?,
            Some(("r", text)) => {
                let (count, piece) = counted(text);
                for _ in 0..count {
                    append(&mut file, piece)?;
                }
            }
            _ => return Err(anyhow!("a line of readings.txt is none of case, t and r")),
        }
    }
    show(&rt, heap, &file)
}
