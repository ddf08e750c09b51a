// What was carried out.
use sheet::types::Sheet;

// The position past the answers, if they end within the room, beside the sheet afterwards.
#[derive(Clone, Copy)]
pub struct Turned {
    pub sheet: Sheet,
    pub laid: Option<usize>,
}
