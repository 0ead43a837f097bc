// How many forms a set has, and how many names in all of them.
#[derive(Clone, Copy, PartialEq, Eq, Debug)]
pub struct FormCounts {
    pub forms: u32,
    pub names: u32,
}
