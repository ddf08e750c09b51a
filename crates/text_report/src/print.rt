// What the counter prints.
ghost use Rattle.std.specs.Prelude.{◌≤◌, length};
ghost use Rattle.text_write.specs.inner.Written.{Fronts};
ghost use Rattle.report.specs.Printed.{printed};
ghost use Rattle.report_lines.specs.inner.Stored.{max_report};

use crate::whole::report_text;
use sheet::printed::print_answer;

// "all report lines, or the one line `(refused N)`", at the front of a buffer that has room for every report: how many bytes.
pub fn print(text: &[u8], out: &mut [u8]) -> usize
    requires { max_report ≤ length out.old }
    ensures { Fronts (printed text.now) out.old result out.new }
{
    let answer = report_text(text, out);
    print_answer(answer, out)
}
