use elem::Elem;

/// A row and a column at which a value was put, and the value there before, if there was one.
#[derive(Clone, Copy)]
pub struct Before {
    pub row: Elem,
    pub column: Elem,
    pub value: Option<Elem>,
}
