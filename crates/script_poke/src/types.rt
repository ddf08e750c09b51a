// What a poke leaves.
use sheet::types::Sheet;

// Whether the record has the entry that was named, beside the sheet afterwards.
#[derive(Clone, Copy)]
pub struct Poked {
    pub known: bool,
    pub sheet: Sheet,
}
