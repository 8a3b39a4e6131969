//! The lines of the report.
ghost use Rattle.std.specs.Prelude.{◌≡◌, ℕ, ◌+◌, ◌≤◌, ◌++◌, decimal, length, count_by};
ghost use Rattle.arrayvec.specs.ArrayString.{array_string_len};
ghost use Rattle.h261_pic.specs.Coded.{coding};
ghost use Rattle.pel_model.specs.declared.Format.{Format};
ghost use Rattle.pel_model.specs.declared.Mark.{Mark};
ghost use Rattle.pel_model.specs.Records.{Picture};
ghost use Rattle.pic_report.specs.Report.{event_line, numbers_line, picture_line, why_name};
ghost use Rattle.rtp_h261.specs.Events.{Lost, Refused};

use arrayvec::ArrayString;
use h261_pic::Coded;
use itoa::Buffer;
use pel_model::{Fault, Why};

/// A line of the report.
pub type Line = ArrayString<160>;

/// The line of a loss.
pub fn lost_line(number: u64) -> Line
    ensures { (format : Format) → result.bytes ≡ event_line format number Lost }
{
    let mut line = Line::new();
    line.push_str("gap ");
    push_number(&mut line, number);
    line.push_str(" lost\n");
    line
}

/// The line of a unit that is no picture.
pub fn gap_line(number: u64, fault: &Fault) -> Line
    ensures { (format : Format) → result.bytes ≡ event_line format number (Refused fault.now.place fault.now.why) }
{
    let mut line = Line::new();
    line.push_str("gap ");
    push_number(&mut line, number);
    line.push_str(" ");
    line.push_str(why_name(fault.why));
    line.push_str(" at ");
    push_number(&mut line, u64::from(fault.place));
    line.push_str("\n");
    line
}

/// The line of a picture.
pub fn picture_line(number: u64, picture: &Coded) -> Line
    ensures { (format : Format) (p : Picture) → picture.now ≡ coding format p →
        result.bytes ≡ picture_line format number p }
{
    numbers_line(
        number,
        picture.tr(),
        picture.bits().len(),
        picture.marks().len(),
        intra_macroblocks(picture),
    )
}

/// The line of a picture with these numbers.
#[tactic(auto, unfolding(crate::specs::Report::numbers_line))]
fn numbers_line(number: u64, tr: u8, bits: u32, macroblocks: usize, intra: usize) -> Line
    ensures { result.bytes ≡ numbers_line number tr bits macroblocks intra }
{
    let mut line = Line::new();
    line.push_str("picture ");
    push_number(&mut line, number);
    line.push_str(" tr ");
    push_number(&mut line, u64::from(tr));
    line.push_str(" bits ");
    push_number(&mut line, u64::from(bits));
    line.push_str(" macroblocks ");
    push_number(&mut line, macroblocks as u64);
    line.push_str(" intra ");
    push_number(&mut line, intra as u64);
    line.push_str("\n");
    line
}

/// How many macroblocks of a picture are Intra.
fn intra_macroblocks(picture: &Coded) -> usize
    ensures { result ≡ count_by (λ (m : Mark). m.intra) picture.now.marks }
{
    picture.marks().iter().filter(|mark| mark.intra).count()
}

/// Appends a number in decimal.
fn push_number(line: &mut Line, number: u64)
    requires room { array_string_len line.old + 20 ≤ 160 }
    ensures bytes { line.new.bytes ≡ line.old.bytes ++ decimal number }
    ensures len { array_string_len line.new ≤ array_string_len line.old + 20 }
{
    let mut digits = Buffer::new();
    line.push_str(digits.format(number));
}

/// The name of a reason.
fn why_name(why: Why) -> &'static str
    ensures name { result.now ≡ why_name why }
    ensures short { length result.now ≤ 13 }
{
    match why {
        Why::NoStart => "NoStart",
        Why::WrongFormat => "WrongFormat",
        Why::StillImage => "StillImage",
        Why::BadGroup => "BadGroup",
        Why::BadQuant => "BadQuant",
        Why::TooLong => "TooLong",
        Why::NoCode => "NoCode",
        Why::Cut => "Cut",
        Why::BadAddress => "BadAddress",
        Why::BadVector => "BadVector",
        Why::VectorOutside => "VectorOutside",
        Why::BadDc => "BadDc",
        Why::BadLevel => "BadLevel",
        Why::TooMany => "TooMany",
    }
}
