//! The fields of forms.
ghost use Rattle.std.specs.Prelude.{◌≡◌, ◌≢◌, IfSome, IsNone};
ghost use Rattle.gr_http.specs.Field.{field_name};

/// A field of a form.
#[derive(Clone, Copy, Debug, PartialEq, Eq)]
pub enum Field {
    /// `author`, who proposes: `@leader`, `@committee`, or a developer's login.
    Author,

    /// `choice`, the number of a choice.
    Choice,

    /// `days`, a number of days.
    Days,

    /// `login`, a developer's login.
    Login,

    /// `minor`, whether an amendment is minor: `0` or `1`.
    Minor,

    /// `name`, a developer's name.
    Name,

    /// `place`, a place on the ballot.
    Place,

    /// `ranks`, the ranks of a ballot.
    Ranks,

    /// `ratio`, a majority ratio.
    Ratio,

    /// `status`, which is `current` or `retired`.
    Status,

    /// `summary`, the summary of a choice.
    Summary,

    /// `text`, the text of a choice.
    Text,

    /// `token`, a voter's token.
    Token,
}

impl Field {
    /// All of them.
    const ALL: [Field; 13] = [
        Field::Author,
        Field::Choice,
        Field::Days,
        Field::Login,
        Field::Minor,
        Field::Name,
        Field::Place,
        Field::Ranks,
        Field::Ratio,
        Field::Status,
        Field::Summary,
        Field::Text,
        Field::Token,
    ];

    /// The name of the field in a form.
    pub fn name(&self) -> &'static str
        ensures { result.now ≡ field_name self.now }
    {
        match self {
            Field::Author => "author",
            Field::Choice => "choice",
            Field::Days => "days",
            Field::Login => "login",
            Field::Minor => "minor",
            Field::Name => "name",
            Field::Place => "place",
            Field::Ranks => "ranks",
            Field::Ratio => "ratio",
            Field::Status => "status",
            Field::Summary => "summary",
            Field::Text => "text",
            Field::Token => "token",
        }
    }

    /// The field with this name, if there is one. Takes no memory.
    pub fn named(name: &str) -> Option<Field>
        ensures some { IfSome result (λ field. name.now ≡ field_name field) }
        ensures none { IsNone result → (field : Field) → name.now ≢ field_name field }
    {
        Field::ALL
            .iter()
            .find(|field| field.name() == name)
            .copied()
    }
}
