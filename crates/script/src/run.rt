// Reads the blocks of the input and writes the answers.
use crate::block::*;
use crate::serve;
use std::alloc::Global;
use std::io::{BufRead, BufReader, BufWriter, Write};

// Writes the answers to all that a block asks, each on a line of its own.
fn write_answers(out: &mut impl Write, heap: Global, block: &Block) -> anyhow::Result<()> {
    let said = serve::answers(heap, block)?;
    for answer in said.as_slice() {
        writeln!(out, "{answer}")?;
    }
    Ok(())
}

// Takes in the whole input, line by line. The answers to a block are written where a line ends it. Lines are counted here, since
// `enumerate` asks that there be fewer than 2 to the power of 64.
fn take_all<const LMCUT: bool>(out: &mut impl Write, rt: &HostRuntime) -> anyhow::Result<()> {
    let heap = rt.alloc();
    let mut block = Block::new(heap);
    let mut number = 0u64;
    for bytes in BufReader::new(heap, rt.stdin())?.split(heap, b'\n') {
        number = number.saturating_add(1);
        let flow = block.take::<LMCUT>(heap, number, bytes?.as_slice())?;
        if flow.is_break() {
            write_answers(out, heap, &block)?;
            block = Block::new(heap);
        }
    }
    write_answers(out, heap, &block)
}

// Runs what the blocks on standard input ask, where `LMCUT` says whether LM-cut is served, and prints the answers.
pub fn run<const LMCUT: bool>(rt: &HostRuntime) -> anyhow::Result<()> {
    let mut out = BufWriter::new(rt.alloc(), rt.stdout())?;
    take_all::<LMCUT>(&mut out, rt)?;
    out.flush()?;
    Ok(())
}
