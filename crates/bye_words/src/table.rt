ghost use Rattle.std.specs.Prelude.{◌≡◌};
ghost use Rattle.bye_words.specs.Forms.{forms};
ghost use Rattle.bye_words.specs.Tables.{forms_of};

use crate::form::Form;
use crate::form_name::FormName;
use crate::kind::Kind;
use crate::name::Name;

/// The forms in which tables are read.
const READ_FORMS: &[&str] = &["tsv", "json"];

/// The forms in which tables are written.
const WRITTEN_FORMS: &[&str] = &["tsv", "json", "csv"];

/// The forms of the program's words.
static FORMS: [Form; 4] = [
    Form {
        name: FormName::Learn,
        command: "learn",
        must: &[
            Name {
                text: "--graph",
                kind: Kind::File,
            },
            Name {
                text: "--wanted",
                kind: Kind::File,
            },
        ],
        may: &[Name {
            text: "--tables",
            kind: Kind::OneOf(READ_FORMS),
        }],
    },
    Form {
        name: FormName::Convert,
        command: "convert",
        must: &[Name {
            text: "--graph",
            kind: Kind::File,
        }],
        may: &[],
    },
    Form {
        name: FormName::ConvertTable,
        command: "convert",
        must: &[
            Name {
                text: "--table",
                kind: Kind::File,
            },
            Name {
                text: "--from",
                kind: Kind::OneOf(READ_FORMS),
            },
            Name {
                text: "--to",
                kind: Kind::OneOf(WRITTEN_FORMS),
            },
        ],
        may: &[],
    },
    Form {
        name: FormName::Run,
        command: "run",
        must: &[
            Name {
                text: "--graph",
                kind: Kind::File,
            },
            Name {
                text: "--query",
                kind: Kind::File,
            },
        ],
        may: &[Name {
            text: "--as",
            kind: Kind::OneOf(WRITTEN_FORMS),
        }],
    },
];

/// The forms of the program's words.
pub fn forms() -> &'static [Form]
    ensures { forms_of result.now ≡ forms }
{
    &FORMS
}
