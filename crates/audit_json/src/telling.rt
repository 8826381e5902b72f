//! How facts are told.

ghost use Rattle.std.specs.Prelude.{◌≡◌};
ghost use Rattle.audit_json.specs.Telling.{asked};

/// How facts are told: as lines of text, or as objects of JSON, one a line.
#[derive(Clone, Copy, PartialEq, Eq)]
pub enum Telling {
    /// As lines of text.
    Lines,
    /// As objects of JSON.
    Objects,
}

impl Telling {
    /// As objects where JSON is asked for.
    pub fn of(json: bool) -> Telling
        ensures { result ≡ asked json }
    {
        if json {
            Telling::Objects
        } else {
            Telling::Lines
        }
    }
}
