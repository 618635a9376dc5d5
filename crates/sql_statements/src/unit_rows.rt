//! What a look at a unit answers: rows as queries show them.
use sqlite::Row;

/// A suggestion, and the votes on it.
#[derive(Drop)]
pub struct SuggestionRows {
    pub suggestion: Row,
    pub votes: Vec<Row>,
}

/// What the office has of a caller and of a language: the language, the policy, and the caller's role.
#[derive(Drop)]
pub struct OfficeRows {
    pub language: Option<Row>,
    pub policy: Option<Row>,
    pub role: Option<Row>,
}

/// A unit, its template's entry, and its suggestions, where they were asked for.
#[derive(Drop)]
pub struct UnitRows {
    pub unit: Option<Row>,
    pub entry: Option<Row>,
    pub suggestions: Vec<SuggestionRows>,
}

/// All that is shown to a caller who looks at a unit.
#[derive(Drop)]
pub struct ContextRows {
    pub office: OfficeRows,
    pub unit: UnitRows,
}
