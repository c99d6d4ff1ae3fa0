//! How a program embeds the library: two threads share an index (`shared_index`), and two threads commit mini-transactions of
//! their own (`transactions`). It prints what came of both.
#![tactic(auto)]

mod shared_index;
mod transactions;

use std::io;

fn main(rt: HostRuntime) -> io::Result<()> {
    match shared_index::run(&rt, rt.alloc()) {
        Some(pairs) => println!(rt; "the index has {pairs} pairs")?,
        None => println!(rt; "memory ran out")?,
    }
    match transactions::run(&rt, rt.alloc()) {
        Some(count) => println!(rt; "the page counts {count}")?,
        None => println!(rt; "memory ran out")?,
    }
    Ok(())
}
