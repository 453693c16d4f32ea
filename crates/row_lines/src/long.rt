// A line that is too long for its field. What a function here requires, its callers show.
ghost use Rattle.std.specs.Prelude.{◌≡◌, ◌≤◌};
ghost use Rattle.row_lines.specs.Row.{is_long};

use tagged_line::line::Line;

// A line is too long for its field, by its bytes or by its columns.
pub fn is_long(line: Line) -> bool
    requires { line.base ≤ line.at }
    ensures { result ≡ is_long line }
{
    131070 < line.cols || 65535 < line.at - line.base
}
