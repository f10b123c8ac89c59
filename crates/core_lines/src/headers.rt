ghost use Rattle.std.specs.Prelude.{◌≡◌};
ghost use Rattle.core_lines.specs.Headers.{has_columns, is_in_place};
ghost use Rattle.core_lines.specs.HeaderParts.{headers_as};

use crate::words::Section;

/// The section of the last header, and which of the headers that stand in any
/// order have stood.
#[derive(Clone, Copy, Debug, Drop, PartialEq, Eq)]
pub struct Headers {
    pub section: Section,
    pub rights: bool,
    pub ranges: bool,
    pub bounds: bool,
}

// Whether the header COLUMNS has stood.
fn has_columns(section: Section) -> bool
    ensures { result ≡ has_columns section }
{
    matches!(
        section,
        Section::Columns | Section::Rights | Section::Ranges | Section::Bounds
    )
}

/// Whether a header may stand behind these.
pub fn is_in_place(headers: Headers, section: Section) -> bool
    ensures { result ≡ is_in_place (headers_as headers) section }
{
    match section {
        Section::Name => matches!(headers.section, Section::Start),
        Section::Rows => matches!(headers.section, Section::Start | Section::Name),
        Section::Columns => matches!(headers.section, Section::Rows),
        Section::Rights => has_columns(headers.section) && !headers.rights,
        Section::Ranges => has_columns(headers.section) && !headers.ranges,
        Section::Bounds => has_columns(headers.section) && !headers.bounds,
        Section::End => has_columns(headers.section),
        Section::Start | Section::Sense | Section::Other => false,
    }
}
