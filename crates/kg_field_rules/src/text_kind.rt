//! The kinds of texts that fields take.

ghost use Rattle.std.specs.Prelude.{◌≡◌};
ghost use Rattle.kg_field_rules.specs.TextRules.{longest};

/// A kind of text. What each takes, and how long it can be, stands in `specs/TextRules.antt`.
#[derive(Clone, Copy)]
pub enum TextKind {
    /// The id of a row.
    Id,
    /// The name of a service or a route.
    Name,
    /// Any text without control characters.
    FreeText,
    /// A free text of up to 65,536 bytes.
    LongText,
    /// A free text that is no id.
    Username,
    /// A free text; an id is stored printed.
    Anonymous,
    /// The host of a service.
    Host,
    /// The host of a route, stored in lower case.
    RouteHost,
    /// A path in its own normal form.
    Path,
    /// Such a path, or a pattern behind `~`.
    RoutePath,
    /// `http://`, a host, optionally a port and a path.
    Url,
    /// Letters in upper case.
    Method,
    /// A token (RFC 9110, section 5.6.2).
    Token,
    /// An IPv4 address, or a block of them.
    AddressBlock,
    /// `name` or `name:value`, for arguments of a query.
    Edit,
    /// The same for headers.
    HeaderEdit,
    /// `name:name`, for headers.
    HeaderRename,
}

/// A few texts of which a field takes one.
#[derive(Clone, Copy)]
pub enum Choice {
    /// The names of the plugins.
    Plugin,
    /// `megabytes`, `kilobytes`, `bytes`.
    SizeUnit,
    /// `consumer`, `ip`, `service`.
    LimitBy,
    /// `http`, `https`.
    Protocol,
}

impl TextKind {
    /// The bytes that a text of this kind has at most, where there is a bound.
    pub fn longest(self) -> Option<usize>
        ensures { result ≡ longest self }
    {
        match self {
            TextKind::Id => None,
            TextKind::Path => None,
            TextKind::Url => None,
            TextKind::RoutePath => Some(256),
            TextKind::LongText => Some(65_536),
            TextKind::Name => Some(255),
            TextKind::FreeText => Some(255),
            TextKind::Username => Some(255),
            TextKind::Anonymous => Some(255),
            TextKind::Host => Some(255),
            TextKind::RouteHost => Some(255),
            TextKind::Method => Some(255),
            TextKind::Token => Some(255),
            TextKind::AddressBlock => None,
            TextKind::Edit => Some(255),
            TextKind::HeaderEdit => Some(255),
            TextKind::HeaderRename => Some(255),
        }
    }
}
