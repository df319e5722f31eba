// The same lines put in a slice that is lent, behind the bytes of it that are in use, for a caller whose buffer is a slice of whatever
// length: each is put in a text of its own first, and copied.
ghost use Rattle.std.specs.Prelude.{◌+◌, ◌≤◌, length};
ghost use Rattle.report.specs.Lines.{refused_line, bad_line, allocation_text};
ghost use Rattle.report.specs.Helpers.{Appended, Printed};

use crate::lines::{put_allocation, put_bad_line, put_refused};
use allocation::Allocated;
use arrayvec::ArrayVec;

// Copies a text behind the bytes in use, and gives how many are in use then.
fn append(out: &mut [u8], used: usize, text: &[u8]) -> usize
    requires { used + length text.now ≤ length out.old }
    ensures { Appended out.old used text.now out.new result }
{
    let next = used + text.len();
    out[used..next].copy_from_slice(text);
    next
}

// `refused=line,number`
pub fn append_refused(out: &mut [u8], used: usize, line: u64, number: u64) -> usize
    requires { used + 50 ≤ length out.old }
    ensures { Printed 50 out.old used (refused_line line number) out.new result }
{
    let mut text = ArrayVec::<u8, 50>::new();
    put_refused(&mut text, line, number);
    append(out, used, text.as_slice())
}

// `line=number`
pub fn append_bad_line(out: &mut [u8], used: usize, line: u64) -> usize
    requires { used + 50 ≤ length out.old }
    ensures { Printed 50 out.old used (bad_line line) out.new result }
{
    let mut text = ArrayVec::<u8, 50>::new();
    put_bad_line(&mut text, line);
    append(out, used, text.as_slice())
}

// The status of an allocation, and the figures and volumes of an accepted one.
pub fn append_allocation(out: &mut [u8], used: usize, a: Allocated, volumes: &[i64]) -> usize
    requires volumes_len_bound { length volumes.now ≤ 32 }
    requires room { used + 2048 ≤ length out.old }
    ensures { Printed 2048 out.old used (allocation_text a volumes.now) out.new result }
{
    let mut text = ArrayVec::<u8, 2_048>::new();
    put_allocation(&mut text, a, volumes);
    append(out, used, text.as_slice())
}
