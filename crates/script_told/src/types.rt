// What is answered.
use sheet::types::Sheet;

// The sheet afterwards, how many bytes the answer has, and whether the command has a further answer.
#[derive(Clone, Copy)]
pub struct OneAnswer {
    pub sheet: Sheet,
    pub written: usize,
    pub more: bool,
}
