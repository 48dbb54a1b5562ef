// Document 01's driver: reads one input in the form of crate `form`, walks its source and prints what it finds.
#![tactic(auto)]

use std::io;
use std::io::Read;

fn main(rt: HostRuntime) -> io::Result<()> {
    // Two lines of the library's, in each program: a crate for them would be no plainer.
    let mut input = Vec::new(rt.alloc());
    rt.reader().take(65536).read_to_end(&mut input)?;
    driving::drive(&rt, &input)
}
