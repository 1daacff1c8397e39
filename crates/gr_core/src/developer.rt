//! Developers: the rows of the roll.
ghost use Rattle.std.specs.Prelude.{◌≡◌, Some};
ghost use Rattle.gr_core.specs.Parts.Developer.{standing_of, word_of, is_current};

/// Whether a developer on the roll still acts.
#[derive(Clone, Copy, Debug, PartialEq, Eq)]
pub enum Standing {
    /// Counts among the current developers.
    Current,

    /// Stays on the roll, and acts no more.
    Retired,
}

impl Standing {
    /// The standing that a word says: `current` or `retired`, and none for every other word. Takes
    /// no memory.
    pub fn of_word(word: &str) -> Option<Standing>
        ensures { result ≡ standing_of word.now }
    {
        if word == "current" {
            Some(Standing::Current)
        } else if word == "retired" {
            Some(Standing::Retired)
        } else {
            None
        }
    }

    /// The word that says it, which [`of_word`](Standing::of_word) reads. Takes no memory.
    pub fn word(self) -> &'static str
        ensures word { result.now ≡ word_of self }
        ensures read { standing_of result.now ≡ Some self }
    {
        match self {
            Standing::Current => "current",
            Standing::Retired => "retired",
        }
    }

    /// Whether a developer with it counts among the current ones. Takes no memory.
    pub fn is_current(self) -> bool
        ensures { result ≡ is_current self }
    {
        matches!(self, Standing::Current)
    }
}

/// What the roll says of a login.
#[derive(Debug, Drop)]
pub struct Developer {
    /// The name that people read: 1 to [`MAX_NAME_CHARACTERS`](crate::MAX_NAME_CHARACTERS)
    /// characters and no control character.
    pub name: String,

    /// Whether the developer still acts.
    pub standing: Standing,
}
