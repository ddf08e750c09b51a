// What the walk over the inner segments between two neighbouring levels answers.
#[derive(Clone, Copy)]
pub struct Walk {
    pub crossed: bool,
    pub taken: usize,
}
