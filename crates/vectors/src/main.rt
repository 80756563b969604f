// A test: the hashes of FNV-1a's published vectors, held to stdout, which has the published numbers.
#![tactic(auto)]

use std::io;

// The bytes, then their hash in decimal.
fn vector(rt: &impl Print, bytes: &str) -> io::Result<()> {
    let hash = block::fnv1a(bytes.as_bytes());
    println!(rt; "'{bytes}' {hash}")
}

fn main(rt: HostRuntime) -> io::Result<()> {
    vector(&rt, "")?;
    vector(&rt, "a")?;
    vector(&rt, "b")?;
    vector(&rt, "c")?;
    vector(&rt, "fo")?;
    vector(&rt, "foo")?;
    vector(&rt, "foob")?;
    vector(&rt, "fooba")?;
    vector(&rt, "foobar")?;
    Ok(())
}
