/// From which side a table is seen. From the other side rows are columns, and columns are rows.
#[derive(Clone, Copy)]
pub enum Side {
    Row,
    Column,
}
