//! The line of a command.

ghost use Rattle.std.specs.Prelude.{◌≡◌, ◌≤◌, ◌<◌, ◌+◌, ◌∷◌, ◌++◌, IsTrue};
ghost use Rattle.arrayvec.specs.ArrayString.{array_string_len};
ghost use Rattle.chair_words.specs.Line.{Says, digits_of, has_sayable_lane, line_saying};

use arrayvec::ArrayString;
use pel_model::Command;

/// Appends a space and a number of at most two digits.
fn push_number(line: &mut ArrayString<16>, number: u8)
    requires digits { number < 100 }
    requires room { array_string_len line.old ≤ 13 }
    ensures { line.new.bytes ≡ line.old.bytes ++ 32 ∷ digits_of number }
{
    line.push(' ');
    if number >= 10 {
        line.push(char::from(b'0' + number / 10));
    }
    line.push(char::from(b'0' + number % 10));
}

/// The words of a command, with one space between.
fn words_of(command: Command) -> ArrayString<16>
    requires { IsTrue (has_sayable_lane command) }
    ensures { result.bytes ≡ line_saying command }
{
    let mut line = ArrayString::new();
    match command {
        Command::Place(place, lane) => {
            line.push_str("place");
            push_number(&mut line, place.number());
            push_number(&mut line, lane);
        }
        Command::Clear(place) => {
            line.push_str("clear");
            push_number(&mut line, place.number());
        }
        Command::Swap(first, second) => {
            line.push_str("swap");
            push_number(&mut line, first.number());
            push_number(&mut line, second.number());
        }
        Command::Speaker(lane) => {
            line.push_str("speaker");
            push_number(&mut line, lane);
        }
        Command::Pin(place) => {
            line.push_str("pin");
            push_number(&mut line, place.number());
        }
        Command::Unpin(place) => {
            line.push_str("unpin");
            push_number(&mut line, place.number());
        }
    }
    line
}

/// The line of a command: its words with one space between, places by their numbers from 1 to 4. A lane of the
/// command is at most 15.
pub fn write_line(command: Command) -> ArrayString<16>
    requires { IsTrue (has_sayable_lane command) }
    ensures words { result.bytes ≡ line_saying command }
    ensures reads_back { Says result.bytes command }
{
    words_of(command)
}
