#![tactic(auto)]
// Compares each line of standard input with the one before it, the first with an empty one, and writes a line for each: how the earlier
// one stands to it (<, = or >), and the steps of the comparison.
use names_compare::compare;
use std::cmp::Ordering;
use std::io;
use std::io::Read;

fn sign(order: Ordering) -> u8 {
    match order {
        Ordering::Less => b'<',
        Ordering::Equal => b'=',
        Ordering::Greater => b'>',
    }
}

fn report(rt: &impl Print, a: &[u8], b: &[u8]) -> io::Result<()> {
    let compared = compare(a, b);
    rt.write_all(&[sign(compared.order), b' '])?;
    println!(rt; "{}", compared.steps)
}

fn run_lines(rt: &impl Print, text: &[u8]) -> io::Result<()> {
    let mut last: &[u8] = &[];
    for ended in text.split_inclusive(|b| *b == b'\n') {
        let line = ended.strip_suffix(b"\n").unwrap_or(ended);
        report(rt, last, line)?;
        last = line;
    }
    Ok(())
}

// The first 64 KiB of the input are read.
fn main(rt: HostRuntime) -> io::Result<()> {
    let mut text = Vec::new(rt.alloc());
    rt.reader().take(65536).read_to_end(&mut text)?;
    run_lines(&rt, &text)
}
