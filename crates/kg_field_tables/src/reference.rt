//! References to rows of other kinds.

ghost use Rattle.std.specs.Prelude.{◌≡◌};
ghost use Rattle.kg_field_tables.specs.Judging.{mentioned_by, text_kind_of};

use kg_field_rules::text_kind::TextKind;
use kg_row_types::id::Id;
use kg_text::Text;

/// How a row is named other than by its id.
#[derive(Clone, Copy)]
pub enum Mention {
    /// By the name of a service or a route.
    Name,
    /// By the username of a consumer.
    Username,
}

/// The row that a body names.
#[derive(Drop)]
pub enum Reference {
    Id(Id),
    Name(Text),
}

impl Mention {
    /// The member by which an object names a row.
    pub fn member(self) -> &'static str
        ensures { result.now ≡ mentioned_by self }
    {
        match self {
            Mention::Name => "name",
            Mention::Username => "username",
        }
    }

    /// How such a row is named.
    pub fn text_kind(self) -> TextKind
        ensures { result ≡ text_kind_of self }
    {
        match self {
            Mention::Name => TextKind::Name,
            Mention::Username => TextKind::FreeText,
        }
    }
}
