// A value under a number.
#[derive(Clone, Copy)]
pub struct Keyed<V> {
    pub key: u32,
    pub value: V,
}
