// The kinds of the records of a listed set of forms.
#[derive(Clone, Copy, PartialEq, Eq, Debug)]
pub enum FormKind {
    Form = 32,
    Name = 33,
}
