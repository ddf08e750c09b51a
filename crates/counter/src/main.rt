// Reads a plan text from standard input and prints all report lines, or the one line `(refused N)`.
#![tactic(auto)]

use sheet_fit::fit::blank;
use std::io;
use std::io::Write;
use streams::read_full;
use text_report::print::print;

fn main(rt: HostRuntime) -> io::Result<()> {
    let mut text = [0u8; 65537];
    let mut out = blank();
    let n = read_full(&mut rt.stdin(), &mut text)?;
    let m = print(&text[..n], &mut out);
    rt.stdout().write_all(&out[..m])
}
