// The kinds of the records of an image.
ghost use Rattle.std.specs.Prelude.{◌≡◌};
ghost use Rattle.image_format.specs.Kinds.{code_of, Decodes};

#[derive(Clone, Copy, PartialEq, Eq, Debug)]
pub enum Kind {
    Document = 1,
    Node = 2,
    Name = 3,
    Type = 4,
    Argument = 5,
    Property = 6,
    String = 7,
    Integer = 8,
    Float = 9,
    Bool = 10,
    Null = 11,
}

// A number that is no kind's.
#[derive(Clone, Copy, PartialEq, Eq, Debug)]
pub struct UnknownKind(pub u16);

impl From<Kind> for u16 {
    ghost from_gives = { λ kind r. r ≡ code_of kind };

    fn from(kind: Kind) -> u16 {
        kind as u16
    }
}

impl TryFrom<u16> for Kind {
    type Error = UnknownKind;

    ghost try_from_gives = { Decodes };

    fn try_from(code: u16) -> Result<Self, UnknownKind> {
        match code {
            1 => Ok(Kind::Document),
            2 => Ok(Kind::Node),
            3 => Ok(Kind::Name),
            4 => Ok(Kind::Type),
            5 => Ok(Kind::Argument),
            6 => Ok(Kind::Property),
            7 => Ok(Kind::String),
            8 => Ok(Kind::Integer),
            9 => Ok(Kind::Float),
            10 => Ok(Kind::Bool),
            11 => Ok(Kind::Null),
            _ => Err(UnknownKind(code)),
        }
    }
}
