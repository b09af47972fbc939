// Reads a topology from standard input, its bytes as they are, and writes a heading and a line for each node: its number, its number of children, and
// one past the last node of its branch; or `no` and the refusal's number.
#![tactic(auto)]

use std::io;
use topology::TARGET_NODES;
use topology_branches::branch_end;

fn print_tree(rt: &impl Print, bytes: &[u8]) -> io::Result<()> {
    println!(rt; "node children end")?;
    for (node, children) in bytes.iter().enumerate() {
        println!(rt; "{node} {children} {}", branch_end(bytes, node))?;
    }
    Ok(())
}

fn main(rt: HostRuntime) -> io::Result<()> {
    let mut buffer = [0u8; 256];
    let Some(bytes) = text_stream::read_all(&rt, &mut buffer) else {
        return Ok(());
    };
    match topology::read(bytes, TARGET_NODES) {
        Ok(()) => print_tree(&rt, bytes),
        Err(refusal) => println!(rt; "no {}", u8::from(refusal)),
    }
}
