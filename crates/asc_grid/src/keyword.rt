// The keywords of a header.
ghost use Rattle.std.specs.Prelude.{◌≡◌};
ghost use Rattle.asc_grid.specs.Keyword.{keyword_of};

/// What a keyword's value is.
#[derive(Clone, Copy, Debug, PartialEq, Eq)]
pub enum Group {
    /// The number of columns.
    Columns,
    /// The number of rows.
    Rows,
    /// The left edge.
    Left,
    /// The lower edge.
    Lower,
    /// The width and height of a cell.
    Size,
    /// The nodata value.
    Nodata,
}

/// A keyword: its group, and whether its value is that of a centre.
#[derive(Clone, Copy, Debug, PartialEq, Eq)]
pub struct Keyword {
    pub group: Group,
    pub centre: bool,
}

/// The keyword that a token is, without regard to ASCII case.
#[tactic(auto, unfolding(crate::specs::Keyword::keywords))]
pub fn keyword_of(token: &[u8]) -> Option<Keyword>
    ensures { result ≡ keyword_of token.now }
{
    let (group, centre) = if token.eq_ignore_ascii_case(b"ncols") {
        (Group::Columns, false)
    } else if token.eq_ignore_ascii_case(b"nrows") {
        (Group::Rows, false)
    } else if token.eq_ignore_ascii_case(b"xllcorner") {
        (Group::Left, false)
    } else if token.eq_ignore_ascii_case(b"xllcenter") {
        (Group::Left, true)
    } else if token.eq_ignore_ascii_case(b"yllcorner") {
        (Group::Lower, false)
    } else if token.eq_ignore_ascii_case(b"yllcenter") {
        (Group::Lower, true)
    } else if token.eq_ignore_ascii_case(b"cellsize") {
        (Group::Size, false)
    } else if token.eq_ignore_ascii_case(b"NODATA_value") {
        (Group::Nodata, false)
    } else {
        return None;
    };
    Some(Keyword { group, centre })
}
