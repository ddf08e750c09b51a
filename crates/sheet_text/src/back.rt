// A text that may be tangled, loaded and given back.
ghost use Rattle.sheet.specs.Calls.{Writes};
ghost use Rattle.sheet_text.specs.Back.{text_back};

use crate::whole::whole_text;
use ints::refusal::Refusal;
use sheet::types::Sheet;
use sheet_load::tangled::load_tangled;

// "Loading by E1 and then asking for all lines."
pub fn text_back(text: &[u8], out: &mut [u8]) -> Result<usize, Refusal>
    ensures { Writes (text_back text.now out.old) result out.new }
{
    let loaded = load_tangled(Sheet::empty(), text);
    loaded.answer?;
    whole_text(loaded.sheet, out)
}
