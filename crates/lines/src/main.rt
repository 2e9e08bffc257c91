// The line program: answers each line of standard input on standard output. A program has no exit status here: where it cannot read or write it says so on standard
// error, and answers no further line.

#![tactic(auto)]

ghost use Rattle.std.specs.Prelude.{◌≤◌, ◌≡◌, length};

use line_answer::{feed, finish, start};
use std::io::{Read, Write};

// On standard error; where that fails too, nothing more can be said.
fn say(rt: &HostRuntime, text: &[u8]) -> bool {
    rt.stderr().write_all(text).is_ok()
}

fn say_unread(rt: &HostRuntime) -> bool {
    say(rt, b"lines: the input cannot be read\n")
}

fn say_unwritten(rt: &HostRuntime) -> bool {
    say(rt, b"lines: the answers cannot be written\n")
}

// Whether the answers were written.
fn print(rt: &HostRuntime, out: &[u8], used: usize) -> bool
    requires { used ≤ length out.now }
{
    if rt.stdout().write_all(&out[..used]).is_ok() {
        return true;
    }
    say_unwritten(rt);
    false
}

// An empty chunk is the end of the input. A proved loop has to end, and nothing says that the input does: the turns are as many as 64 bits
// count, which no run uses up.
fn read_all(rt: &HostRuntime, chunk: &mut [u8], line: &mut [u8], out: &mut [u8])
    requires { (length chunk.old ≡ 512) × (length line.old ≡ 512) × (length out.old ≡ 98816) }
{
    let mut p = start();
    for _ in 0..u64::MAX {
        match rt.stdin().read(chunk) {
            Ok(0) => break,
            Ok(n) => {
                p = feed(&chunk[..n], line, out, p);
                if !print(rt, out, p.used) {
                    return;
                }
            }
            Err(_) => {
                say_unread(rt);
                return;
            }
        }
    }
    let used = finish(line, out, p);
    print(rt, out, used);
}

// A chunk of 512 bytes ends at most 512 lines, with at most 193 bytes of answer each.
fn main(rt: HostRuntime) {
    let mut chunk: [u8; 512] = [0; 512];
    let mut line: [u8; 512] = [0; 512];
    let mut out: [u8; 98816] = [0; 98816];
    read_all(&rt, &mut chunk, &mut line, &mut out);
}
