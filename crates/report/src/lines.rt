// Lines, and the text of an allocation, put behind the text that waits.
// Kept: each contract asks for the room of its own text, and no type holds it: how much is asked differs by what is printed, and what
// is printed takes of it.
ghost use Rattle.std.specs.Prelude.{◌+◌, ◌*◌, ◌≤◌, ◌++◌, length};
ghost use Rattle.report.specs.Lines.{line_feed, refused_line, bad_line, count_lines, figure_lines, volume_line, volume_lines, allocation_text};
ghost use Rattle.report.specs.Helpers.{HasRoomFor, Puts};

use allocation::Allocated;
use arrayvec::ArrayVec;
use itoa::{Buffer, Integer};
use refusals::ACCEPTED;

const LINE_FEED: u8 = b'\n';

// A key with a number in base ten.
// Kept: `Display` would give the same text, but no contract of std says that a write to a formatter succeeds.
fn put_keyed<const N: usize, I: Integer>(out: &mut ArrayVec<u8, N>, key: &[u8], n: I)
    requires { HasRoomFor (length key.now + I.MAX_STR_LEN) out.old N }
    ensures { Puts (length key.now + I.MAX_STR_LEN) (key.now ++ I.text n) out.old out.new }
{
    let mut digits = Buffer::new();
    out.try_extend_from_slice(key).unwrap();
    out.try_extend_from_slice(digits.format(n).as_bytes())
        .unwrap();
}

// The line of a key with a number.
fn put_value<const N: usize, I: Integer>(out: &mut ArrayVec<u8, N>, key: &[u8], n: I)
    requires { HasRoomFor (length key.now + I.MAX_STR_LEN + 1) out.old N }
    ensures { Puts (length key.now + I.MAX_STR_LEN + 1) (key.now ++ (I.text n ++ line_feed)) out.old out.new }
{
    put_keyed(out, key, n);
    out.push(LINE_FEED);
}

// `refused=line,number`
// Kept: a number and no `Refusal`, since it prints any number, and a narrower type would ask more of its callers.
#[tactic(auto, using(crate::proofs::Decimal::printed), unfolding(crate::specs::Lines::refused_line))]
pub fn put_refused<const N: usize>(out: &mut ArrayVec<u8, N>, line: u64, number: u64)
    requires { HasRoomFor 50 out.old N }
    ensures { Puts 50 (refused_line line number) out.old out.new }
{
    put_keyed(out, b"refused=", line);
    put_value(out, b",", number);
}

// `line=number`
#[tactic(auto, using(crate::proofs::Decimal::printed), unfolding(crate::specs::Lines::value_line))]
pub fn put_bad_line<const N: usize>(out: &mut ArrayVec<u8, N>, line: u64)
    requires { HasRoomFor 50 out.old N }
    ensures { Puts 50 (bad_line line) out.old out.new }
{
    put_value(out, b"line=", line);
}

// `volume=unit,Wh`, if the volume is not 0
#[tactic(auto, using(crate::proofs::Decimal::printed), unfolding(crate::specs::Lines::volume_line))]
fn put_volume<const N: usize>(out: &mut ArrayVec<u8, N>, unit: usize, wh: i64)
    requires { HasRoomFor 50 out.old N }
    ensures { Puts 50 (volume_line unit wh) out.old out.new }
{
    if wh != 0 {
        put_keyed(out, b"volume=", unit);
        put_value(out, b",", wh);
    }
}

#[tactic(auto, using(crate::proofs::Volumes::next_volume), unfolding(crate::specs::Lines::volume_lines))]
fn put_volumes<const N: usize>(out: &mut ArrayVec<u8, N>, volumes: &[i64])
    requires { HasRoomFor (50 * length volumes.now) out.old N }
    ensures { Puts (50 * length volumes.now) (volume_lines 0 volumes.now) out.old out.new }
{
    for (unit, &wh) in volumes.iter().enumerate() {
        put_volume(out, unit, wh);
    }
}

#[tactic(auto, using(crate::proofs::Decimal::printed), unfolding(crate::specs::Lines::count_lines, crate::specs::Lines::value_line))]
fn put_counts<const N: usize>(out: &mut ArrayVec<u8, N>, a: Allocated)
    requires { HasRoomFor 116 out.old N }
    ensures { Puts 116 (count_lines a) out.old out.new }
{
    put_value(out, b"actual=", a.actual);
    put_value(out, b"estimated=", a.estimated);
    put_value(out, b"defaulted=", a.defaulted);
    put_value(out, b"idle=", a.idle);
}

#[tactic(auto, using(crate::proofs::Decimal::printed), unfolding(crate::specs::Lines::figure_lines, crate::specs::Lines::signed_line))]
fn put_figures<const N: usize>(out: &mut ArrayVec<u8, N>, a: Allocated)
    requires { HasRoomFor 181 out.old N }
    ensures { Puts 181 (figure_lines a) out.old out.new }
{
    put_counts(out, a);
    put_value(out, b"unallocated=", a.unallocated);
    put_value(out, b"weighted=", a.weighted);
}

// The status of an allocation, and the figures and volumes of an accepted one.
// Kept: the answer as C has it, with a number, and no Result: it prints any number, and a narrower type would ask more of its callers.
#[tactic(auto, using(crate::proofs::Decimal::printed), unfolding(crate::specs::Lines::allocation_text, crate::specs::Lines::value_line))]
pub fn put_allocation<const N: usize>(out: &mut ArrayVec<u8, N>, a: Allocated, volumes: &[i64])
    requires volumes_len_bound { length volumes.now ≤ 32 }
    requires room { HasRoomFor 2048 out.old N }
    ensures { Puts 2048 (allocation_text a volumes.now) out.old out.new }
{
    put_value(out, b"status=", a.number);
    if a.number == ACCEPTED {
        put_figures(out, a);
        put_volumes(out, volumes);
    }
}
