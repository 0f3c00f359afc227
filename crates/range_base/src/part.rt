/// What a row has beside its lower place: its upper place, and its value.
#[derive(Clone, Copy, Debug)]
pub struct Part<V> {
    pub end: u128,
    pub value: V,
}
