//! The forms of the words behind each call.
ghost use Rattle.std.specs.Prelude.{◌≡◌, option_map};
ghost use Rattle.pass_trace.specs.Calls.{forms_of};

use pass_entry::CallName;

// The form of a word behind a call.
#[derive(Clone, Copy, PartialEq, Eq)]
pub(crate) enum Form {
    Number,
    Name,
    Mode,
    Payload,
    /// Any number of words, to the end of the line.
    Rest,
}

// The forms of the words behind a call; None where no line of a trace has the call.
pub(crate) fn forms_of(call: CallName) -> Option<&'static [Form]>
    ensures { option_map (λ f. f.now) result ≡ forms_of call }
{
    let forms: &'static [Form] = match call {
        CallName::Start | CallName::Exit => return None,
        CallName::Creat => &[Form::Number, Form::Name],
        CallName::OpenName => &[Form::Number, Form::Name, Form::Mode],
        CallName::Write => &[Form::Number, Form::Payload],
        CallName::Read
        | CallName::Seek
        | CallName::Truncate
        | CallName::MakePipe
        | CallName::Revive
        | CallName::Disclose => &[Form::Number, Form::Number],
        CallName::CloseFd
        | CallName::Fork
        | CallName::WaitChild
        | CallName::Await
        | CallName::MakeObj
        | CallName::FreezeObj
        | CallName::Sync => &[Form::Number],
        CallName::Exec => &[Form::Name, Form::Rest],
        CallName::Rename => &[Form::Name, Form::Name],
        CallName::Unlink => &[Form::Name],
        CallName::TagObj => &[Form::Number, Form::Name, Form::Name],
    };
    Some(forms)
}
