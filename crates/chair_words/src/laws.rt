//! Laws of the rule for the chair's lines.

ghost use Rattle.std.specs.Prelude.{IsTrue};
ghost use Rattle.pel_model.specs.declared.chair.Command.{Command};
ghost use Rattle.chair_words.specs.Line.{Says, OneAnswer, has_sayable_lane, line_saying};

/// The line that is written for a command says that command, where a lane in it is at most 15.
pub fn written_lines_are_read()
    ensures { (command : Command) → IsTrue (has_sayable_lane command)
        → Says (line_saying command) command }
{}

/// A line says at most one command, has at most one first fault, and never both. `read_line` finds one of the two.
pub fn one_answer()
    ensures { OneAnswer }
{}
