// What an error at an answer says of the answer: a label, and the span of what was asked.
ghost use Rattle.std.specs.Prelude.{◌≡◌, Some};
ghost use Rattle.replies.specs.Marks.{label_text};

use std::fmt;
use std::fmt::Display;
use tree::span::Span;

#[derive(Clone, Copy, PartialEq, Eq, Debug)]
pub enum Label {
    Identifier,
    Value,
    Variant,
    Node,
    Property,
}

#[derive(Clone, Copy, PartialEq, Eq, Debug)]
pub struct Mark {
    pub label: Label,
    pub span: Span,
}

impl Label {
    pub fn text(self) -> &'static str
        ensures { result.now ≡ label_text self }
    {
        match self {
            Label::Identifier => "while deserializing this KDL identifier",
            Label::Value => "while deserializing this KDL value",
            Label::Variant => "while deserializing this enum variant",
            Label::Node => "while deserializing this KDL node",
            Label::Property => "while deserializing this KDL property",
        }
    }
}

impl Display for Label {
    ghost output = { λ l. Some (label_text l) };

    fn fmt<W: fmt::Write>(&self, f: &mut fmt::Formatter<W>) -> fmt::Result {
        f.write_str(self.text())
    }
}
