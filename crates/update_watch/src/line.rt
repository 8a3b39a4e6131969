//! The line of overdue macroblocks.
ghost use Rattle.std.specs.Prelude.{◌≡◌, ◌+◌, ◌≤◌, ◌++◌, decimal};
ghost use Rattle.arrayvec.specs.ArrayString.{array_string_len};
ghost use Rattle.update_watch.specs.Overdue.{overdue_line};

use crate::overdue::Overdue;
use arrayvec::ArrayString;
use itoa::Buffer;

/// A line of the watch.
pub type Line = ArrayString<160>;

/// The line of the macroblocks that are overdue at a picture, the event of this number.
#[tactic(auto, unfolding(crate::specs::Overdue::overdue_line))]
pub fn overdue_line(number: u64, overdue: &Overdue) -> Line
    ensures { result.bytes ≡ overdue_line number overdue.now }
{
    let mut line = Line::new();
    line.push_str("overdue ");
    push_number(&mut line, number);
    line.push_str(" group ");
    push_number(&mut line, u64::from(overdue.group));
    line.push_str(" address ");
    push_number(&mut line, u64::from(overdue.address));
    line.push_str(" places ");
    push_number(&mut line, u64::from(overdue.places));
    line.push_str("\n");
    line
}

/// Appends a number in decimal.
fn push_number(line: &mut Line, number: u64)
    requires room { array_string_len line.old + 20 ≤ 160 }
    ensures bytes { line.new.bytes ≡ line.old.bytes ++ decimal number }
    ensures len { array_string_len line.new ≤ array_string_len line.old + 20 }
{
    let mut digits = Buffer::new();
    line.push_str(digits.format(number));
}
