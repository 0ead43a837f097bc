// Laws of the answers: each function's contract is one of them.
ghost use Rattle.replies.specs.Examples.{Examples};
ghost use Rattle.replies.specs.Replies.{UnknownRefused};

// The worked examples, as one table.
pub fn examples_hold()
    ensures { Examples }
{}

// A struct whose number no form has is refused at every place.
pub fn unknown_form_is_refused()
    ensures { UnknownRefused }
{}
