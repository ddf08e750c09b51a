// One line of a names text.
ghost use Rattle.picture_names.specs.inner.Indexed.{Says};

use crate::chars::is_name;
use text_scan::scanners::{FoundNumber, number_then};

// A line without its LF: `NUMBER NAME`. What is found is the number; `next` is where the name begins.
pub fn read_line(line: &[u8]) -> FoundNumber
    ensures { Says line.now result.found result.value result.next }
{
    let n = number_then(line, 0, b" ");
    if !n.found {
        return n;
    }
    let next = n.next;
    if !is_name(&line[next..]) {
        return FoundNumber {
            found: false,
            value: 0,
            next,
        };
    }
    n
}
