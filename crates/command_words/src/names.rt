//! Names of what is opened, as words give them.

ghost use Rattle.std.specs.Prelude.{◌≡◌, map};

use std::marker::Model;

/// A name. Contracts see its octets.
#[derive(Debug, Drop)]
pub struct Name<'a> {
    name: &'a str,
}

impl<'a> Model for Name<'a> {
    ghost use Rattle.command_words.specs.Options.{Text};

    ghost Value = { Text };

    ghost view = { λ a. a.name.now };
}

impl<'a> Name<'a> {
    /// The name that this text is.
    pub fn new(name: &'a str) -> Name<'a>
        ensures { result ≡ name.now }
    {
        Name { name }
    }

    /// The name as a text.
    pub fn as_str(&self) -> &'a str
        ensures { result.now ≡ self.now }
    {
        self.name
    }
}

/// Names in their order. Contracts see a list of their octets.
#[derive(Debug, Drop)]
pub struct Names<'a> {
    names: Vec<&'a str>,
}

impl<'a> Model for Names<'a> {
    ghost use Rattle.std.specs.Prelude.{List, map};
    ghost use Rattle.command_words.specs.Options.{Text};

    ghost Value = { List Text };

    ghost view = { λ a. map (λ n. n.now) a.names.items };
}

impl<'a> Names<'a> {
    /// The names that these texts are.
    pub fn new(names: Vec<&'a str>) -> Names<'a>
        ensures { result ≡ map (λ n. n.now) names.entry.items }
    {
        Names { names }
    }

    /// The names as texts.
    pub fn as_slice(&self) -> &[&'a str]
        ensures { map (λ n. n.now) result.now ≡ self.now }
    {
        self.names.as_slice()
    }
}
