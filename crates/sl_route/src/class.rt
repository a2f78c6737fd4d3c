ghost use Rattle.std.specs.Prelude.{◌≡◌, ◌↔◌, IsTrue};
ghost use Rattle.sl_route.specs.Places.{sites, first_server, most_servers};
ghost use Rattle.sl_route.specs.Tables.{IsServer};

/// The classes of servers that have sites: of names and attributes, of the bytes of files below 65536, and of
/// those above.
#[derive(Clone, Copy, Debug, PartialEq, Eq)]
pub enum Class {
    Dir,
    Small,
    Node,
}

impl Class {
    /// How many sites it has.
    pub fn sites(self) -> u8
        ensures { result ≡ sites self }
    {
        match self {
            Class::Dir | Class::Node => 64,
            Class::Small => 16,
        }
    }

    /// The actor that its first server is.
    pub fn first_server(self) -> u8
        ensures { result ≡ first_server self }
    {
        match self {
            Class::Dir => 16,
            Class::Small => 32,
            Class::Node => 48,
        }
    }

    /// How many servers it has at most: their actors follow one another.
    pub fn most_servers(self) -> u8
        ensures { result ≡ most_servers self }
    {
        match self {
            Class::Dir | Class::Node => 8,
            Class::Small => 4,
        }
    }

    /// Whether this actor is a server of the class.
    pub fn has_server(self, actor: u8) -> bool
        ensures { IsTrue result ↔ IsServer self actor }
    {
        match self {
            Class::Dir => matches!(actor, 16..=23),
            Class::Small => matches!(actor, 32..=35),
            Class::Node => matches!(actor, 48..=55),
        }
    }
}
